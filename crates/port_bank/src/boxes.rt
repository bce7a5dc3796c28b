//! Moves of boxes within a list.
ghost use Rattle.std.specs.Prelude.{◌≡◌, ◌<◌, ◌+◌, vec_len};
ghost use Rattle.port_bank.specs.Steps.{MovesToEnd, TakesPlace};

use std::mem;

/// Moves a box to the end.
pub fn retire<B: Drop>(boxes: &mut Vec<B>, i: usize)
    requires { i < vec_len boxes.old }
    ensures len { vec_len boxes.new ≡ vec_len boxes.old }
    ensures moved { MovesToEnd i boxes.old.items boxes.new.items }
{
    let failed = boxes.remove(i);
    let _ = boxes.push(failed);
}

/// Moves the box at place `from` to the lower place `i`, and the box that was there to the end.
pub fn put_in_place<B: Drop>(boxes: &mut Vec<B>, from: usize, i: usize)
    requires below { i < from }
    requires within { from < vec_len boxes.old }
    ensures len { vec_len boxes.new ≡ vec_len boxes.old }
    ensures moved { TakesPlace from i boxes.old.items boxes.new.items }
{
    let spare = boxes.remove(from);
    let replaced = mem::replace(&mut boxes[i], spare);
    let _ = boxes.push(replaced);
}
