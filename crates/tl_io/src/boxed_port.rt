//! `ConfigPort` for boxes: a call goes to the port inside.
use crate::{ConfigPort, Failed, Write};

impl ConfigPort for Box<dyn ConfigPort> {
    ghost port_seen = { λ port. (ConfigPort-box port).port_seen port.value };

    fn write(&mut self, address: u32, bit: bool) -> Result<(), Failed> {
        (**self).write(address, bit)
    }

    fn logged(&self, i: usize) -> Option<Write> {
        (**self).logged(i)
    }

    fn faults(&self) -> u64 {
        (**self).faults()
    }
}
