//! Registers and addresses that the FADT has in two ways: by a field of its first versions, and by an
//! extended one (section 5.2.9).
//!
//! Extended fields came with revision 2. Most tables have all the extended blocks: what reads records of those tests
//! nothing (`short` makes others such tables).
ghost use Rattle.std.specs.Prelude.{◌≡◌, ◌+◌, ◌*◌, ◌^◌, ◌<◌, ◌≤◌, length, true, nat_le, option_and_then, option_map, if◌then◌else◌};
ghost use Rattle.acpi_base.specs.Words.{field_of, filled_part};
ghost use Rattle.acpi_fixed.specs.Words.{HasBlocks, address_or, extended_address, extended_number, extended_of, reach_of, register_of, block_at, block_or_ports, port_of, usable_extended, optional_block_or_ports, ports_at, timer_block_or_ports, registers_at};

mod gpe;
mod readings;

use super::offsets;
use acpi_base::address::{AccessSize, AddressSpace, GenericAddress, RawAddress};
use acpi_base::bytes::{field, field_in, filled, filled_in, u8_in, u32_in};
use acpi_base::{AcpiError, AcpiResult};
pub use gpe::GpeBlock;
pub(super) use gpe::base_beside;
pub(super) use readings::registers_at;

/// Where the last extended block ends, X_GPE1_BLK.
pub(super) const BLOCKS_END: usize = offsets::GPE1.extended + 12;

/// Where extended fields may be: before this offset, the length of a table whose FADT Major Version, at 8, is 2 or
/// above, and of an older one 0.
#[inline(always)]
pub(super) fn reach_in(table: &[u8]) -> usize
    requires { 116 ≤ length table.now }
    ensures { result ≡ reach_of table.now }
{
    if u8_in(table, 8) >= 2 { table.len() } else { 0 }
}

/// The twelve bytes of a generic address at an offset, all of which are there. They are one by one, since
/// the compiler then copies them with no detour by an array of zeros.
#[inline(always)]
fn address_in(table: &[u8], offset: usize) -> RawAddress
    requires { offset + 12 ≤ length table.now }
    ensures { result ≡ filled_part table.now offset 12 }
{
    let bytes = &table[offset..];
    [
        bytes[0], bytes[1], bytes[2], bytes[3], bytes[4], bytes[5], bytes[6], bytes[7], bytes[8],
        bytes[9], bytes[10], bytes[11],
    ]
}

/// The twelve bytes of a generic address at an offset, where they are, or `None` if they end after `reach`.
#[inline(always)]
pub(super) fn raw_in(table: &[u8], reach: usize, offset: usize) -> Option<&RawAddress>
    requires reach { reach ≤ length table.now }
    requires offset { offset + 12 ≤ 276 }
    ensures { option_map (λ raw. raw.now) result
        ≡ (if nat_le (offset + 12) reach then Some (filled_part table.now offset 12) else None) }
{
    if offset + 12 > reach {
        return None;
    }
    <&RawAddress>::try_from(&table[offset..offset + 12]).ok()
}

/// The number of eight bytes at an offset, or 0 if they end after `reach`.
#[inline(always)]
pub(super) fn extended_number_in(table: &[u8], reach: usize, offset: usize) -> u64
    requires offset { offset + 8 ≤ 244 }
    requires reach { reach ≡ reach_of table.now }
    ensures { result ≡ extended_number table.now offset }
{
    if offset + 8 <= reach {
        field_in(table, offset, 8)
    } else {
        0
    }
}

/// The number in an extended field, of a table that has all blocks.
#[inline(always)]
pub(super) fn extended_number(table: &[u8], offset: usize) -> u64
    requires offset { offset + 8 ≤ 244 }
    requires blocks { HasBlocks table.now }
    ensures { result ≡ extended_number table.now offset }
{
    field_in(table, offset, 8)
}

/// The twelve bytes of a generic address in an extended field, or `None` if the table doesn't have them.
#[inline(always)]
pub(super) fn extended_address(table: &[u8], offset: usize) -> Option<RawAddress>
    requires table { 116 ≤ length table.now }
    requires offset { offset + 12 ≤ 276 }
    ensures { result ≡ extended_address table.now offset }
{
    if offset + 12 <= reach_in(table) {
        Some(filled_in(table, offset))
    } else {
        None
    }
}

/// The 64-bit address if it is not 0, else the 32-bit one.
///
/// Fails with `refusal` if that is 0.
pub(crate) fn address_from(refusal: AcpiError, wide: u64, narrow: u32) -> AcpiResult<u64>
    ensures { result ≡ address_or refusal wide narrow }
{
    if wide != 0 {
        return Ok(wide);
    }
    if narrow == 0 {
        return Err(refusal);
    }
    Ok(narrow as u64)
}

/// The register in an extended field, or `None` if the table has no such field.
///
/// Fails for reserved codes with `InvalidGenericAddress`.
pub(crate) fn register_from(raw: Option<&RawAddress>) -> AcpiResult<Option<GenericAddress>>
    ensures { result ≡ register_of (option_map (λ raw. raw.now) raw.entry) }
{
    match raw {
        Some(raw) => Ok(Some(GenericAddress::read(raw)?)),
        None => Ok(None),
    }
}

/// The offsets of a block's address, of its length and of its extended field in a table.
#[derive(Clone, Copy)]
pub(super) struct BlockPlace {
    pub(super) address: usize,
    pub(super) size: usize,
    pub(super) extended: usize,
}

/// A block of registers: by the number of bytes and the first port that the first versions of the table
/// have, and by its extended field, which is zeros if the table has none. It is bytes alone, so that no
/// gaps are between blocks.
#[derive(Clone, Copy, Debug)]
pub(crate) struct RegisterBlock {
    size: u8,
    port: [u8; 4],
    extended: RawAddress,
}

impl RegisterBlock {
    /// What its getters look at.
    #[inline(always)]
    pub(crate) fn fields(&self) -> BlockFields<'_>
        ensures extended { extended_of result ≡ usable_extended self.now.extended }
        ensures port { result.port ≡ port_of self.now }
        ensures size { result.size ≡ self.now.size }
    {
        BlockFields {
            port: field_in(&self.port, 0, 4) as u32,
            size: self.size,
            extended: usable(Some(&self.extended)),
        }
    }
}

/// What a table has of a block of registers: the extended field, unless its address is 0, and of the first versions'
/// fields the first port and the number of bytes.
#[derive(Clone, Copy)]
pub(crate) struct BlockFields<'t> {
    extended: Option<&'t RawAddress>,
    port: u32,
    size: u8,
}

/// An extended field, or `None` if there is none or its address is 0.
#[inline(always)]
fn usable(raw: Option<&RawAddress>) -> Option<&RawAddress>
    ensures { option_map (λ field. field.now) result
        ≡ option_and_then usable_extended (option_map (λ field. field.now) raw.entry) }
{
    match raw {
        Some(field) => {
            // Address
            if field_in(field, 4, 8) == 0 {
                return None;
            }
            Some(field)
        }
        None => None,
    }
}

impl<'t> BlockFields<'t> {
    /// The fields that a table has at a place, where they are.
    #[inline(always)]
    #[tactic(auto, unfolding(crate::specs::Registers::block_at))]
    pub(super) fn read(table: &'t [u8], reach: usize, place: BlockPlace) -> BlockFields<'t>
        requires address { place.address + 4 ≤ length table.now }
        requires size { place.size + 1 ≤ length table.now }
        requires extended { place.extended + 12 ≤ 244 }
        requires reach { reach ≡ reach_of table.now }
        ensures extended { extended_of result
            ≡ usable_extended (block_at table.now place.address place.size place.extended).extended }
        ensures port { result.port ≡ port_of (block_at table.now place.address place.size place.extended) }
        ensures size { result.size ≡ (block_at table.now place.address place.size place.extended).size }
    {
        BlockFields {
            port: u32_in(table, place.address),
            size: u8_in(table, place.size),
            extended: usable(raw_in(table, reach, place.extended)),
        }
    }

    /// The ports of the first versions, eight bits for each byte.
    ///
    /// Fails with `InvalidGenericAddress` if these are 32 bytes or more, more than a width can express.
    #[inline(always)]
    fn ports(self) -> AcpiResult<GenericAddress>
        ensures { result ≡ ports_at self.entry.port self.entry.size }
    {
        if self.size >= 32 {
            return Err(AcpiError::InvalidGenericAddress);
        }
        Ok(GenericAddress {
            address_space: AddressSpace::SystemIo,
            bit_width: self.size * 8,
            bit_offset: 0,
            access_size: AccessSize::Undefined,
            address: self.port as u64,
        })
    }

    /// The extended block if its address is not 0, else the ports.
    ///
    /// Fails with `InvalidGenericAddress` for reserved codes in the extended block, and for 32 bytes of ports and
    /// more.
    #[inline(always)]
    pub(crate) fn block(self) -> AcpiResult<GenericAddress>
        ensures { result ≡ block_or_ports (extended_of self.entry) self.entry.port self.entry.size }
    {
        match self.extended {
            Some(raw) => GenericAddress::read(raw),
            None => self.ports(),
        }
    }

    /// The extended block if its address is not 0, else the ports, of a block that a machine need not have:
    /// `None` if neither field has an address.
    ///
    /// Fails as `block` does.
    #[inline(always)]
    pub(crate) fn optional_block(self) -> AcpiResult<Option<GenericAddress>>
        ensures { result ≡ optional_block_or_ports (extended_of self.entry) self.entry.port self.entry.size }
    {
        if let Some(raw) = self.extended {
            return Ok(Some(GenericAddress::read(raw)?));
        }
        if self.port == 0 {
            return Ok(None);
        }
        Ok(Some(self.ports()?))
    }

    /// The block of the timer: the extended block if its address is not 0, else the ports, or `None` if the
    /// length isn't 4 or neither field has an address.
    ///
    /// Fails with `InvalidGenericAddress` for a reserved code in the extended block.
    #[inline(always)]
    pub(crate) fn timer_block(self) -> AcpiResult<Option<GenericAddress>>
        ensures { result ≡ timer_block_or_ports (extended_of self.entry) self.entry.port self.entry.size }
    {
        if self.size != 4 {
            return Ok(None);
        }
        self.optional_block()
    }
}

/// The registers of the fixed hardware, as the FADT has them.
#[derive(Clone, Copy, Debug)]
pub(crate) struct Registers {
    pub(crate) pm1a_event: RegisterBlock,
    pub(crate) pm1b_event: RegisterBlock,
    pub(crate) pm1a_control: RegisterBlock,
    pub(crate) pm1b_control: RegisterBlock,
    pub(crate) pm2_control: RegisterBlock,
    pub(crate) pm_timer: RegisterBlock,
    pub(crate) gpe0: RegisterBlock,
    pub(crate) gpe1: RegisterBlock,
    pub(crate) reset: RawAddress,
    pub(crate) sleep_control: Option<RawAddress>,
    pub(crate) sleep_status: Option<RawAddress>,
}

/// The block whose address, length and extended field a table has at these offsets, if it has all blocks.
#[inline(always)]
#[tactic(auto, unfolding(crate::specs::Registers::block_at))]
pub(super) fn block_at(table: &[u8], address: usize, size: usize, extended: usize) -> RegisterBlock
    requires address { address + 4 ≤ 116 }
    requires size { size + 1 ≤ 116 }
    requires extended { extended + 12 ≤ 244 }
    requires length { 244 ≤ length table.now }
    requires blocks { HasBlocks table.now }
    ensures { result ≡ block_at table.now address size extended }
{
    RegisterBlock {
        size: u8_in(table, size),
        port: filled_in(table, address),
        extended: address_in(table, extended),
    }
}
