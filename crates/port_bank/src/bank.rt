//! The ports of a configuration: those that serve its regions, the spares, and the calls made to them.
ghost use Rattle.std.specs.Prelude.{◌≡◌, ◌+◌, ◌*◌, ◌/◌, ◌≤◌, ◌<◌, ◌^◌, vec_len, [], map, take, drop, length, OnOk, OnErr, IfOk, IfErr, true, false};
ghost use Rattle.tl_io.specs.Writes.{writes_from};
ghost use Rattle.port_bank.specs.Bank.{Called, Replaced, Retired, all_ports};
ghost use Rattle.port_bank.specs.Send.{Plays};
ghost use Rattle.port_bank.specs.Image.{Holds, KeepsHolding};
ghost use Rattle.tl_io.specs.Writes.{AreAscending, AreBitsOf};
ghost use Rattle.port_bank.specs.Moves.{IsLeft, MovesWithCause, KeepsPlaces, LosesPlace};
ghost use Rattle.port_bank.specs.Steps.{Fills, FailsToFill, Mends, FailsToMend, Steps, FailsToStep};

use crate::boxes::{put_in_place, retire};
use crate::regions::{region_bits, width_of};
use tl_io::{ConfigPort, Failed, Write};

/// The region whose port failed while no spare was left.
#[derive(Clone, Copy, Debug, PartialEq, Eq, thiserror::Error)]
#[error("the port of region {region} failed while no spare was left")]
pub struct PortFault {
    /// The region's number, from 0.
    pub region: usize,
}

/// Ports in one list: those that serve, the spares, the others, and the failed ones.
#[derive(Drop)]
pub struct PortBank<P: Drop> {
    ports: Vec<P>,
    serving: usize,
    spares: usize,
    failed: usize,
    ghost within: { serving + spares + failed ≤ vec_len ports },
}

/// A bank of boxed ports.
pub type Bank = PortBank<Box<dyn ConfigPort>>;

impl<P: ConfigPort> PortBank<P> {
    ghost use Rattle.port_bank.specs.Seen.{bank_seen, made_of};

    /// A bank of these ports. The first `serving` ports serve the regions in order, and the next `spares` are the spares. The
    /// others are never touched.
    pub fn make(ports: Vec<P>, serving: usize, spares: usize) -> PortBank<P>
        requires { serving + spares ≤ vec_len ports }
        ensures { bank_seen P.port_seen result ≡ made_of serving spares (map P.port_seen ports.items) }
    {
        PortBank {
            ports,
            serving,
            spares,
            failed: 0,
        }
    }

    /// Returns the ports: those that serve, in the order of their regions; the spares that are left; the others; and the
    /// failed ones, in the order of failure.
    pub fn release(self) -> Vec<P>
        ensures { map P.port_seen result.items ≡ all_ports (bank_seen P.port_seen self) }
    {
        let PortBank { ports, .. } = self;
        ports
    }

    /// The number of serving ports.
    pub fn serving(&self) -> usize
        ensures { result ≡ length (bank_seen P.port_seen self.now).serving }
    {
        self.serving
    }

    /// The number of failed ports.
    pub fn failed(&self) -> usize
        ensures { result ≡ length (bank_seen P.port_seen self.now).failed }
    {
        self.failed
    }

    /// Sends a write to the port of a region.
    fn call(&mut self, region: usize, write: Write) -> Result<(), Failed>
        requires { region < self.old.serving }
        ensures ok { OnOk result (Called region write true (bank_seen P.port_seen self.old) (bank_seen P.port_seen self.new)) }
        ensures err { OnErr result (Called region write false (bank_seen P.port_seen self.old) (bank_seen P.port_seen self.new)) }
        ensures serving { self.new.serving ≡ self.old.serving }
        ensures spares { self.new.spares ≡ self.old.spares }
    {
        self.ports[region].write(write.address, write.bit)
    }

    /// Replaces the port of a region, which failed, with the first spare.
    fn replace(&mut self, region: usize) -> Result<(), PortFault>
        requires { region < self.old.serving }
        ensures ok { OnOk result (Replaced region (bank_seen P.port_seen self.old) (bank_seen P.port_seen self.new)) }
        ensures fault { IfErr result (λ fault. (fault.region ≡ region) × Retired region (bank_seen P.port_seen self.old) (bank_seen P.port_seen self.new)) }
        ensures serving { OnOk result (self.new.serving ≡ self.old.serving) }
        ensures spares { OnOk result (self.new.spares + 1 ≡ self.old.spares) }
    {
        let none_left = self.spares == 0;
        if none_left {
            retire(&mut self.ports, region);
            self.serving -= 1;
            self.failed += 1;
            return Err(PortFault { region });
        }
        put_in_place(&mut self.ports, self.serving, region);
        self.spares -= 1;
        self.failed += 1;
        Ok(())
    }

    /// Writes a whole region to its port.
    fn fill(&mut self, region: usize, width: usize, config: &[bool]) -> Result<(), Failed>
        requires region { region < self.old.serving }
        requires small { length config.now < 2 ^ 32 }
        requires start { region * width ≤ length config.now }
        ensures ok { OnOk result (Fills width config.now region (bank_seen P.port_seen self.old) (bank_seen P.port_seen self.new)) }
        ensures err { OnErr result (FailsToFill width config.now region (bank_seen P.port_seen self.old) (bank_seen P.port_seen self.new)) }
        ensures serving { self.new.serving ≡ self.old.serving }
        ensures spares { self.new.spares ≡ self.old.spares }
    {
        let (start, bits) = region_bits(width, config, region);
        for (i, bit) in bits.iter().enumerate() {
            let write = Write {
                address: (start + i) as u32,
                bit: *bit,
            };
            self.call(region, write)?;
        }
        Ok(())
    }

    /// Replaces the port of a region, which failed, with spares until one of them takes the whole region.
    fn mend(&mut self, region: usize, width: usize, config: &[bool]) -> Result<(), PortFault>
        requires region { region < self.old.serving }
        requires small { length config.now < 2 ^ 32 }
        requires start { region * width ≤ length config.now }
        ensures ok { OnOk result (Mends width config.now region (bank_seen P.port_seen self.old) (bank_seen P.port_seen self.new)) }
        ensures err { IfErr result (λ f. (f.region ≡ region) × FailsToMend width config.now region (bank_seen P.port_seen self.old) (bank_seen P.port_seen self.new)) }
        ensures serving { OnOk result (self.new.serving ≡ self.old.serving) }
    {
        'spares: loop {
            self.replace(region)?;
            if self.fill(region, width, config).is_ok() {
                return Ok(());
            }
        }
    }

    /// Sends a write to the port of its region, unless the region is below `passed`. Returns the first region whose later
    /// writes must still be sent.
    fn send_one(
        &mut self,
        write: Write,
        passed: usize,
        width: usize,
        config: &[bool],
    ) -> Result<usize, PortFault>
        requires small { length config.now < 2 ^ 32 }
        requires address { write.address < length config.now }
        requires width { 0 < width }
        requires region { write.address / width < self.old.serving }
        ensures ok { IfOk result (λ next. Steps width config.now passed write next (bank_seen P.port_seen self.old) (bank_seen P.port_seen self.new)) }
        ensures fault { IfErr result (λ f. FailsToStep width config.now passed write f.region (bank_seen P.port_seen self.old) (bank_seen P.port_seen self.new)) }
        ensures serving { OnOk result (self.new.serving ≡ self.old.serving) }
    {
        let region = write.address as usize / width;
        if region < passed {
            return Ok(passed);
        }
        if self.call(region, write).is_ok() {
            return Ok(passed);
        }
        self.mend(region, width, config)?;
        Ok(region + 1)
    }

    /// Sends each bit of a configuration, in ascending order, to the port of its region.
    fn send_bits(&mut self, config: &[bool]) -> Result<(), PortFault>
        requires { length config.now < 2 ^ 32 }
        ensures { Plays config.now (writes_from 0 config.now) (bank_seen P.port_seen self.old) (bank_seen P.port_seen self.new) result }
    {
        if self.serving == 0 {
            return Ok(());
        }
        let width = width_of(self.serving, config.len());
        let mut passed = 0;
        for (address, bit) in config.iter().enumerate() {
            let write = Write {
                address: address as u32,
                bit: *bit,
            };
            passed = self.send_one(write, passed, width, config)?;
        }
        Ok(())
    }

    /// Sends each write, in the order given, to the port of its region.
    fn send_writes(&mut self, writes: &[Write], config: &[bool]) -> Result<(), PortFault>
        requires small { length config.now < 2 ^ 32 }
        requires ascending { AreAscending writes.now }
        requires bits { AreBitsOf config.now writes.now }
        ensures { Plays config.now writes.now (bank_seen P.port_seen self.old) (bank_seen P.port_seen self.new) result }
    {
        if self.serving == 0 {
            return Ok(());
        }
        let width = width_of(self.serving, config.len());
        let mut passed = 0;
        for write in writes {
            passed = self.send_one(*write, passed, width, config)?;
        }
        Ok(())
    }

    /// Writes a whole configuration, region by region and in ascending order, each bit to the port of its region. Allocates
    /// no memory. Makes one call for each bit, and at most the calls of one region for each spare that is used.
    ///
    /// # Errors
    /// [`PortFault`] if a serving port fails while no spare is left.
    pub fn load(&mut self, config: &[bool]) -> Result<(), PortFault>
        requires { length config.now < 2 ^ 32 }
        ensures plays { Plays config.now (writes_from 0 config.now) (bank_seen P.port_seen self.old) (bank_seen P.port_seen self.new) result }
        ensures holds { OnOk result (Holds config.now (bank_seen P.port_seen self.new)) }
        ensures none { (bank_seen P.port_seen self.old).serving ≡ [] → bank_seen P.port_seen self.new ≡ bank_seen P.port_seen self.old }
        ensures places { OnOk result (KeepsPlaces (bank_seen P.port_seen self.old) (bank_seen P.port_seen self.new)) }
        ensures lost { OnErr result (LosesPlace (bank_seen P.port_seen self.old) (bank_seen P.port_seen self.new)) }
        ensures left { IsLeft (bank_seen P.port_seen self.old) (bank_seen P.port_seen self.new) result }
        ensures cause { MovesWithCause (bank_seen P.port_seen self.old) (bank_seen P.port_seen self.new) }
    {
        self.send_bits(config)
    }

    /// Sends the writes of an event, which are ascending, each to the port of its region. `config` is the configuration after
    /// the event. Allocates no memory. Makes one call for each write, and at most the calls of one region for each spare that
    /// is used.
    ///
    /// # Errors
    /// [`PortFault`] if a serving port fails while no spare is left.
    pub fn send(&mut self, writes: &[Write], config: &[bool]) -> Result<(), PortFault>
        requires small { length config.now < 2 ^ 32 }
        requires ascending { AreAscending writes.now }
        requires bits { AreBitsOf config.now writes.now }
        ensures plays { Plays config.now writes.now (bank_seen P.port_seen self.old) (bank_seen P.port_seen self.new) result }
        ensures keeps { OnOk result (KeepsHolding config.now writes.now (bank_seen P.port_seen self.old) (bank_seen P.port_seen self.new)) }
        ensures none { (bank_seen P.port_seen self.old).serving ≡ [] → bank_seen P.port_seen self.new ≡ bank_seen P.port_seen self.old }
        ensures places { OnOk result (KeepsPlaces (bank_seen P.port_seen self.old) (bank_seen P.port_seen self.new)) }
        ensures lost { OnErr result (LosesPlace (bank_seen P.port_seen self.old) (bank_seen P.port_seen self.new)) }
        ensures left { IsLeft (bank_seen P.port_seen self.old) (bank_seen P.port_seen self.new) result }
        ensures cause { MovesWithCause (bank_seen P.port_seen self.old) (bank_seen P.port_seen self.new) }
    {
        self.send_writes(writes, config)
    }
}
