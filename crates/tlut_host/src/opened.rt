//! Opening a pack.
ghost use Rattle.std.specs.Prelude.{◌≡◌, ◌≢◌, ◌<◌, ◌≤◌, length, IfOk, IfErr};
ghost use Rattle.ppc_pack.specs.declared.pack.TheConstants.{MOST_PACK_BYTES};
ghost use Rattle.ppc_file.specs.PackFile.{IsPackFile};
ghost use Rattle.tlut_host.specs.declared.setting.TheConstants.{CLOSED};
ghost use Rattle.tlut_host.specs.Opened.{IsOpened, IsOpenFault, told, told_of, status_of};
ghost use Rattle.tlut_host.specs.Paced.{IsPacedOpened};

use crate::host::NamedSpecialiser;
use crate::paced::PacedHost;
use crate::setting::{LIMIT, MEMORY, PackRefusal, REFUSED};
use ppc_file::{PackErr, decode};
use ppc_pack::{MOST_PACK_BYTES, Pack};
use std::alloc::Global;

// Why bytes aren't opened.
#[derive(Clone, Copy)]
pub(crate) enum OpenErr {
    Limit,
    Memory,
    Refused(PackErr),
}

// The rule and the offset that C is told.
fn refusal_told(error: PackErr) -> PackRefusal
    ensures { result ≡ told error }
{
    let (rule, offset) = match error {
        PackErr::Magic(at) => (1, at),
        PackErr::Version(at) => (2, at),
        PackErr::Truncated(at) => (3, at),
        PackErr::BadName(at) => (4, at),
        PackErr::BadNode(at) => (5, at),
        PackErr::BadBit(at) => (6, at),
        PackErr::Trailing(at) => (7, at),
        PackErr::BadNumber(at) => (8, at),
        PackErr::Memory => (0, 0),
    };
    PackRefusal { rule, offset }
}

impl OpenErr {
    fn status(self) -> u32
        ensures status { result ≡ status_of self }
        ensures some { 0 < result }
        ensures few { result < CLOSED }
    {
        match self {
            OpenErr::Limit => LIMIT,
            OpenErr::Memory => MEMORY,
            OpenErr::Refused(_) => REFUSED,
        }
    }

    fn refusal(self) -> PackRefusal
        ensures { result ≡ told_of self }
    {
        match self {
            OpenErr::Limit => PackRefusal { rule: 0, offset: 0 },
            OpenErr::Memory => PackRefusal { rule: 0, offset: 0 },
            OpenErr::Refused(error) => refusal_told(error),
        }
    }

    // Tells C what is refused, and answers the status.
    pub(crate) fn tell(self, refusal: &mut PackRefusal) -> u32
        ensures status { result ≡ status_of self }
        ensures some { 0 < result }
        ensures few { result < CLOSED }
        ensures refusal { refusal.new ≡ told_of self }
    {
        *refusal = self.refusal();
        self.status()
    }
}

// The pack in these bytes.
fn read_pack(alloc: Global, bytes: &[u8]) -> Result<Pack, OpenErr>
    ensures ok { IfOk result (λ pack. IsPackFile bytes.now pack) }
    ensures fault { IfErr result (IsOpenFault bytes.now) }
    ensures limit { MOST_PACK_BYTES < length bytes.now → result ≡ Err OpenErr.Limit }
{
    if bytes.len() > MOST_PACK_BYTES {
        return Err(OpenErr::Limit);
    }
    match decode(alloc, bytes) {
        Ok(pack) => Ok(pack),
        Err(PackErr::Memory) => Err(OpenErr::Memory),
        Err(error) => Err(OpenErr::Refused(error)),
    }
}

// A host of the pack in these bytes, in a box.
pub(crate) fn open(alloc: Global, bytes: &[u8]) -> Result<Box<NamedSpecialiser>, OpenErr>
    ensures ok { IfOk result (λ b. IsOpened bytes.now b.value) }
    ensures fault { IfErr result (IsOpenFault bytes.now) }
    ensures limit { MOST_PACK_BYTES < length bytes.now → result ≡ Err OpenErr.Limit }
{
    let pack = read_pack(alloc, bytes)?;
    let Ok(host) = NamedSpecialiser::make(alloc, pack) else {
        return Err(OpenErr::Memory);
    };
    match Box::new(alloc, host) {
        Ok(host) => Ok(host),
        Err(_) => Err(OpenErr::Memory),
    }
}

// A host at a limited rate of the pack in these bytes, in a box.
pub(crate) fn open_paced(alloc: Global, bytes: &[u8], rate: u32) -> Result<Box<PacedHost>, OpenErr>
    requires { 1 ≤ rate }
    ensures ok { IfOk result (λ b. IsPacedOpened bytes.now rate b.value) }
    ensures fault { IfErr result (IsOpenFault bytes.now) }
    ensures limit { MOST_PACK_BYTES < length bytes.now → result ≡ Err OpenErr.Limit }
{
    let pack = read_pack(alloc, bytes)?;
    let Ok(host) = PacedHost::make(alloc, pack, rate) else {
        return Err(OpenErr::Memory);
    };
    match Box::new(alloc, host) {
        Ok(host) => Ok(host),
        Err(_) => Err(OpenErr::Memory),
    }
}
