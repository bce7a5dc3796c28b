//! The regions of a configuration, one for each serving port.
ghost use Rattle.std.specs.Prelude.{◌≡◌, ◌≤◌, ◌*◌, ◌^◌, ◌<◌, take, drop, length};
ghost use Rattle.port_bank.specs.Regions.{width};

/// The number of addresses in a region. The last regions may have fewer.
pub fn width_of(ports: usize, bits: usize) -> usize
    requires { bits < 2 ^ 32 }
    ensures { result ≡ width ports bits }
{
    let ports = ports.max(1);
    bits / ports + (bits % ports).min(1)
}

/// Region `i`: its first address, and its bits.
pub fn region_bits(width: usize, config: &[bool], i: usize) -> (usize, &[bool])
    requires { i * width ≤ length config.now }
    ensures start { result.0 ≡ i * width }
    ensures bits { result.1.now ≡ take width (drop (i * width) config.now) }
{
    let start = i * width;
    let rest = &config[start..];
    (start, &rest[..width.min(rest.len())])
}
