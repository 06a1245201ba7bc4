//! Device scopes: which devices a structure of a DMAR names (section 8.3.1).
ghost use Rattle.std.specs.Prelude.{◌≡◌, length, IfSome, IfNone, true, false};
ghost use Rattle.acpi_iommu.specs.Words.{hops_left, is_front, is_same_hop, last_hop, path_of, bytes_of_scope, enumeration_id, is_numbered, names, reaches, scope_flags, scope_kind, start_bus};

use crate::pieces::{PieceIter, PieceKind, valid_length};
use acpi_base::bytes::{field, skip};

/// A step from a bus to a device on it (section 8.3.1). C passes it as these two bytes.
#[repr(C)]
#[derive(Clone, Copy, Debug)]
pub struct Hop {
    /// The device's number.
    pub device: u8,
    /// The number of its function.
    pub function: u8,
}

impl Hop {
    /// Whether the two are the same.
    fn is_same(&self, other: &Hop) -> bool
        ensures { result ≡ is_same_hop self.now other.now }
    {
        self.device == other.device && self.function == other.function
    }
}

/// The hops of a path, in order (section 8.3.1): two bytes each. A last single byte is no hop.
#[derive(Clone, Copy)]
pub struct HopIter<'a> {
    rest: &'a [u8],
}

impl Iterator for HopIter<'_> {
    ghost use Rattle.acpi_base.specs.FromStd.{YieldsFirst, item_count};
    ghost use Rattle.acpi_iommu.specs.Words.{hops_left};

    type Item = Hop;

    ghost next_gives = { YieldsFirst (λ s. hops_left s) };

    ghost remaining = { item_count (λ s. hops_left s) };

    fn next(&mut self) -> Option<Hop> {
        match self.rest {
            [device, function, rest @ ..] => {
                self.rest = rest;
                Some(Hop {
                    device: *device,
                    function: *function,
                })
            }
            _ => None,
        }
    }
}

/// A device scope: a device, or a bridge and all devices below it, with the path to it from a bus (section 8.3.1).
#[derive(Clone, Copy)]
pub struct DeviceScope<'a> {
    bytes: &'a [u8],
}

impl<'a> DeviceScope<'a> {
    /// Type: 1 a PCI endpoint, 2 a bridge and all devices below it, 3 an I/O APIC, 4 an HPET that sends MSIs, 5 a
    /// device that the ACPI namespace names. Others are kept.
    pub fn kind(&self) -> u8
        ensures { result ≡ scope_kind (bytes_of_scope self.now) }
    {
        field(self.bytes, 0, 1) as u8 // Type
    }

    /// Flags, whatever structure the scope is in.
    pub fn flags(&self) -> u8
        ensures { result ≡ scope_flags (bytes_of_scope self.now) }
    {
        field(self.bytes, 2, 1) as u8 // Flags
    }

    /// Enumeration ID: of type 3 the id of the I/O APIC, of type 4 the number of the HPET, of type 5 the ACPI Device
    /// Number of an ANDD.
    pub fn enumeration_id(&self) -> u8
        ensures { result ≡ enumeration_id (bytes_of_scope self.now) }
    {
        field(self.bytes, 4, 1) as u8 // Enumeration ID
    }

    /// Start Bus Number: the bus from which the path goes.
    pub fn start_bus(&self) -> u8
        ensures { result ≡ start_bus (bytes_of_scope self.now) }
    {
        field(self.bytes, 5, 1) as u8 // Start Bus Number
    }

    /// Path: the hops from the start bus to the device, in order.
    pub fn hops(&self) -> HopIter<'a>
        ensures { hops_left result ≡ path_of (bytes_of_scope self.now) }
    {
        HopIter {
            rest: skip(self.bytes, 6),
        }
    }

    /// Whether the scope names the device that these hops reach from a bus: a PCI endpoint, type 1, if its path is the
    /// hops, and a bridge, type 2, if its path has a hop and the hops begin with it.
    pub fn names(&self, bus: u8, hops: &[Hop]) -> bool
        ensures { result ≡ names bus hops.now (bytes_of_scope self.now) }
    {
        self.start_bus() == bus && reaches(self.kind(), self.hops(), hops)
    }

    /// Whether the scope is of a type, and has this Enumeration ID.
    pub(super) fn is_numbered(&self, kind: u8, id: u8) -> bool
        ensures { result ≡ is_numbered kind id (bytes_of_scope self.now) }
    {
        self.kind() == kind && self.enumeration_id() == id
    }

    /// The last hop of the path, or `None` if it has none.
    pub(super) fn last_hop(&self) -> Option<Hop>
        ensures { result ≡ last_hop (bytes_of_scope self.now) }
    {
        let mut last = None;
        let mut path = self.hops();
        while let Some(hop) = path.next() {
            last = Some(hop);
        }
        last
    }
}

/// Whether a path reaches the device at the end of the hops, by the type of its scope.
fn reaches(kind: u8, path: HopIter<'_>, hops: &[Hop]) -> bool
    ensures { result ≡ reaches kind (hops_left path.entry) hops.now }
{
    match front_length(path, hops) {
        Some(length) => {
            if kind == 1 {
                length == hops.len()
            } else {
                kind == 2 && length > 0
            }
        }
        None => false,
    }
}

/// How many hops a path has, if the hops begin with it.
fn front_length(path: HopIter<'_>, hops: &[Hop]) -> Option<usize>
    ensures whole { IfSome result (λ n. (is_front (hops_left path.entry) hops.now ≡ true)
        × (n ≡ length (hops_left path.entry))) }
    ensures other { IfNone result (is_front (hops_left path.entry) hops.now ≡ false) }
{
    let mut count = 0;
    let mut path = path;
    while let Some(hop) = path.next() {
        if count >= hops.len() || !hop.is_same(&hops[count]) {
            return None;
        }
        count += 1;
    }
    Some(count)
}

/// Device scopes.
#[derive(Clone, Copy)]
pub struct Scopes;

impl<'a> PieceKind<'a> for Scopes {
    ghost use Rattle.std.specs.Prelude.{true};
    ghost use Rattle.acpi_iommu.specs.Words.{bytes_of_scope, scope_size};

    type Piece = DeviceScope<'a>;

    ghost size = { scope_size };

    ghost shown = { bytes_of_scope };

    ghost filled = { λ s. true };

    fn size_at(bytes: &[u8]) -> Option<usize>
        ensures { result ≡ scope_size bytes.now }
    {
        valid_length(6, field(bytes, 1, 1) as usize) // Length
    }

    fn piece(bytes: &'a [u8]) -> DeviceScope<'a> {
        DeviceScope { bytes }
    }

    fn is_whole(_scope: &DeviceScope<'a>) -> bool {
        true
    }
}

/// The device scopes of a structure, in order (section 8.3.1). It ends at the structure's end, or where no scope
/// begins: if one byte is left, or if the length is under 6 or past the structure's end.
pub type DeviceScopeIter<'a> = PieceIter<'a, Scopes>;
