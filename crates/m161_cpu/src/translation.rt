//! Translation of addresses to physical ones.

ghost use Rattle.std.specs.Prelude.{◌≡◌, ◌+◌, ◌≤◌, ◌<◌, ◌/◌, ◌^◌, false, Ok, Some, IfOk, IfSome};
ghost use Rattle.m161_isa.specs.Address.{unmapped};
ghost use Rattle.m161_cpu.specs.Translation.{address_error, bus_error, by_page, invalid, is_misaddressed, miss, physical_at, reach, reach_word_of, translate};
ghost use Rattle.m161_cpu.specs.Kept.{Gives};
ghost use Rattle.m161_cpu.specs.helpers.Translation.{IsWidth};
ghost use Rattle.m161_tlb.specs.Rows.{find_row};
ghost use Rattle.m161_cop0.specs.Control.{identifier_of, is_user};

use crate::fault::{Access, FaultKind, StepFault};
use crate::processor::Cpu;
use crate::row_number::RowNumber;
use m161_isa::unmapped;
use m161_tlb::Tlb;

/// A physical address, and the number of the row that gave it, if the address is mapped.
#[derive(Clone, Copy)]
pub(crate) struct Physical {
    pub(crate) at: u32,
    pub(crate) row: Option<RowNumber>,
}

/// The fault of an address where nothing is on the bus.
pub(crate) fn bus_error(access: Access) -> StepFault
    ensures { result ≡ bus_error access }
{
    match access {
        Access::Fetch => StepFault::of(FaultKind::BusErrorFetch),
        Access::Load | Access::Store => StepFault::of(FaultKind::BusErrorData),
    }
}

impl<T: Tlb> Cpu<T> {
    /// The place in RAM of an access by kseg0 in kernel mode that is aligned to its width; RAM has
    /// `size` bytes. Others go by `kept`, or through
    /// `reach_elsewhere`.
    #[inline(always)]
    #[tactic(auto, unfolding(crate::specs::Translation::physical_at, crate::specs::Translation::is_misaddressed))]
    pub(crate) fn direct(&self, width: u32, address: u32, size: u32) -> Option<u32>
        requires width { IsWidth width }
        requires size { size ≤ 2 ^ 29 }
        ensures value { (access : Access)
            → IfSome result (λ at. physical_at access width address self.now ≡ Ok at) }
        ensures within { IfSome result (λ at. at + width ≤ size) }
        ensures kernel { IfSome result (λ _. is_user self.now.control ≡ false) }
        ensures segment { IfSome result (λ at. unmapped address ≡ Some at) }
    {
        let at = address.wrapping_sub(0x8000_0000);
        if at < size / width * width && address % width == 0 && !self.control.is_user() {
            Some(at)
        } else {
            None
        }
    }

    /// The physical address of an aligned access to kuseg whose translation is kept, if it is in
    /// RAM of `size` bytes.
    #[inline(always)]
    pub(crate) fn kept(&self, access: Access, width: u32, address: u32, size: u32) -> Option<u32>
        requires width { IsWidth width }
        ensures value { IfSome result (λ at. physical_at access width address self.now ≡ Ok at) }
        ensures within { IfSome result (λ at. at + width ≤ size) }
    {
        let at = self.find_kept(access, width, address)?;
        if u64::from(at) + u64::from(width) <= u64::from(size) {
            Some(at)
        } else {
            None
        }
    }

    // The same, in RAM or not.
    #[inline(always)]
    fn find_kept(&self, access: Access, width: u32, address: u32) -> Option<u32>
        requires width { IsWidth width }
        ensures { IfSome result (λ at. physical_at access width address self.now ≡ Ok at) }
    {
        let id = self.control.identifier();
        match access {
            Access::Fetch => self.fetches.find(width, address, id),
            Access::Load => self.loads.find(width, address, id),
            Access::Store => self.stores.find(width, address, id),
        }
    }

    /// The place in RAM of an access by one of the two short ways: by kseg0, or by a translation
    /// that is kept.
    #[inline(always)]
    pub(crate) fn place(&self, access: Access, width: u32, address: u32, size: u32) -> Option<u32>
        requires width { IsWidth width }
        requires size { size ≤ 2 ^ 29 }
        ensures value { IfSome result (λ at. physical_at access width address self.now ≡ Ok at) }
        ensures within { IfSome result (λ at. at + width ≤ size) }
    {
        match self.direct(width, address, size) {
            Some(at) => Some(at),
            None => self.kept(access, width, address, size),
        }
    }

    /// The place in RAM of an access that has to be aligned to its width.
    #[inline(always)]
    pub(crate) fn reach(
        &mut self,
        access: Access,
        width: u32,
        address: u32,
        size: u32,
    ) -> Result<u32, StepFault>
        requires width { IsWidth width }
        requires size { size ≤ 2 ^ 29 }
        ensures same { self.new ≡ self.old }
        ensures found { result ≡ reach access width address size self.old }
        ensures within { IfOk result (λ at. at + width ≤ size) }
    {
        match self.place(access, width, address, size) {
            Some(at) => Ok(at),
            None => self.reach_aside(access, width, address, size),
        }
    }

    // For LLVM: a call of `reach_elsewhere`, so that only this function has a stack slot for the
    // result, and not the common path.
    #[inline(always)]
    fn reach_aside(
        &mut self,
        access: Access,
        width: u32,
        address: u32,
        size: u32,
    ) -> Result<u32, StepFault>
        requires width { 0 < width }
        ensures same { self.new ≡ self.old }
        ensures found { result ≡ reach access width address size self.old }
        ensures within { IfOk result (λ at. at + width ≤ size) }
    {
        let at = self.reach_elsewhere(access, width, address, size)?;
        Ok(at)
    }

    /// The place in RAM of an access other than those of `place`.
    #[cold]
    #[inline(never)]
    pub(crate) fn reach_elsewhere(
        &mut self,
        access: Access,
        width: u32,
        address: u32,
        size: u32,
    ) -> Result<u32, StepFault>
        requires width { 0 < width }
        ensures same { self.new ≡ self.old }
        ensures found { result ≡ reach access width address size self.old }
        ensures within { IfOk result (λ at. at + width ≤ size) }
    {
        let at = self.translate(access, width, address)?;
        if u64::from(at) + u64::from(width) > u64::from(size) {
            return Err(bus_error(access));
        }
        Ok(at)
    }

    /// The place in RAM of the word that contains an address, which needn't be aligned.
    #[inline(always)]
    pub(crate) fn reach_word_of(
        &mut self,
        access: Access,
        address: u32,
        size: u32,
    ) -> Result<u32, StepFault>
        ensures same { self.new ≡ self.old }
        ensures found { result ≡ reach_word_of access address size self.old }
        ensures within { IfOk result (λ at. at + 4 ≤ size) }
    {
        let at = self.translate(access, 1, address)? / 4 * 4;
        if u64::from(at) + 4 > u64::from(size) {
            return Err(bus_error(access));
        }
        Ok(at)
    }

    /// The physical address of an access that has to be aligned to its width. A translation of
    /// kuseg is kept.
    #[cold]
    #[inline(never)]
    #[tactic(auto, unfolding(crate::specs::Translation::physical_at))]
    pub(crate) fn translate(
        &mut self,
        access: Access,
        width: u32,
        address: u32,
    ) -> Result<u32, StepFault>
        requires { 0 < width }
        ensures same { self.new ≡ self.old }
        ensures value { result ≡ physical_at access width address self.old }
    {
        let to = self.locate(access, width, address)?;
        if address < 0x8000_0000 {
            self.keep(access, address, to.at);
        }
        Ok(to.at)
    }

    // Keeps a translation.
    fn keep(&mut self, access: Access, address: u32, at: u32)
        requires kuseg { address < 0x80000000 }
        requires found { Gives self.old.rows access address at
            (find_row self.old.rows (address / 2 ^ 12) (identifier_of self.old.control)) }
        ensures { self.new ≡ self.old }
    {
        let space = self.control.identifier();
        match access {
            Access::Fetch => self.fetches.keep(address, space, at),
            Access::Load => self.loads.keep(address, space, at),
            Access::Store => self.stores.keep(address, space, at),
        }
    }

    /// The same, with the row that gives it. The Step and `uses` both translate by this.
    #[inline(always)]
    pub(crate) fn locate(
        &self,
        access: Access,
        width: u32,
        address: u32,
    ) -> Result<Physical, StepFault>
        requires { 0 < width }
        ensures { result ≡ translate access width address self.now }
    {
        if self.is_misaddressed(width, address) {
            return Err(address_error(access, address));
        }
        if let Some(at) = unmapped(address) {
            return Ok(Physical { at, row: None });
        }
        self.locate_by_page(access, address)
    }

    // The address isn't aligned to the access's width, or it is a kernel address in user mode.
    #[tactic(auto, unfolding(crate::specs::Translation::is_misaddressed))]
    fn is_misaddressed(&self, width: u32, address: u32) -> bool
        requires { 0 < width }
        ensures { result ≡ is_misaddressed width address self.now }
    {
        address % width != 0 || (self.control.is_user() && address >= 0x8000_0000)
    }

    // The physical address of an address in kuseg or kseg2, by the lowest row that matches.
    #[inline(always)]
    fn locate_by_page(&self, access: Access, address: u32) -> Result<Physical, StepFault>
        ensures { result ≡ by_page access address self.now }
    {
        let Some(i) = self.matching_row(address) else {
            return Err(miss(access, address));
        };
        let row = self.row(i.number());
        if !row.v {
            return Err(invalid(access, address));
        }
        if access == Access::Store && !row.d {
            return Err(StepFault::at(FaultKind::TlbModified, address));
        }
        Ok(Physical {
            at: (row.frame.number() << 12) + address % (1 << 12),
            row: Some(i),
        })
    }

    // The lowest row that matches an address and EntryHi's identifier.
    fn matching_row(&self, address: u32) -> Option<RowNumber>
        ensures { result ≡ find_row self.now.rows (address / 2 ^ 12)
            (identifier_of self.now.control) }
    {
        let number = self.tlb.find(address >> 12, self.control.identifier())?;
        Some(RowNumber::new(number))
    }
}

// A misaligned address, or a kernel address in user mode.
fn address_error(access: Access, address: u32) -> StepFault
    ensures { result ≡ address_error access address }
{
    match access {
        Access::Fetch | Access::Load => StepFault::at(FaultKind::AddressErrorLoad, address),
        Access::Store => StepFault::at(FaultKind::AddressErrorStore, address),
    }
}

// The row that matches isn't valid.
fn invalid(access: Access, address: u32) -> StepFault
    ensures { result ≡ invalid access address }
{
    match access {
        Access::Fetch | Access::Load => StepFault::at(FaultKind::TlbLoad, address),
        Access::Store => StepFault::at(FaultKind::TlbStore, address),
    }
}

// No row matches.
fn miss(access: Access, address: u32) -> StepFault
    ensures { result ≡ miss access address }
{
    if address >= 0x8000_0000 {
        return invalid(access, address);
    }
    match access {
        Access::Fetch | Access::Load => StepFault::at(FaultKind::UserMissLoad, address),
        Access::Store => StepFault::at(FaultKind::UserMissStore, address),
    }
}
