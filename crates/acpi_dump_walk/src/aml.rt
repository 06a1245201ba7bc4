//! The named objects of AML, in the order of the bytes (ACPI 6.4, section 20.2.5). AML is not run.
ghost use Rattle.std.specs.Prelude.{◌≡◌, ◌<◌, ◌≤◌, List, length, IfErr, IfOk, IfSome};
ghost use Rattle.acpi_dump_walk.specs.Passed.{IsBegun, IsPassed, IsTerm, Within};

pub mod constant;
pub mod parts;
pub mod resources;
pub mod units;
pub mod value;

use crate::out::Out;
use crate::walk::ShowObjects;
use acpi_sleep::AmlError;
use acpi_sleep::block::block_at;
use acpi_sleep::name::{Name, name_at};
use acpi_sleep::opcode::opcode_at;
use acpi_sleep::term::{Part, parts_end, parts_of};
use std::alloc::{AllocError, Global};
use units::unit_at;
pub use value::Value;

/// How many objects are entered one in another at most, and how many segments a path has at most, so that the paths of
/// many objects stay short.
const DEEPEST: usize = 32;

/// An object: its offset in the table, its length, between which offsets its own bytes are, what it is, the segments of
/// its path from the root on, four letters each, and what is shown of its value. A name is looked up in no other scope.
/// An `If`, an `Else` and a `While` have no path.
///
/// Its own bytes are those between its name and the first object in it, of a method the code, and else all.
#[derive(Clone, Copy)]
pub struct Object<'a> {
    pub offset: u64,
    pub length: u64,
    pub own: (u64, u64),
    pub kind: &'static str,
    pub path: Option<&'a [u8]>,
    pub value: Value<'a>,
}

/// Why the objects of a table aren't shown from a place on.
#[derive(Clone, Copy)]
pub enum Ends {
    /// The AML isn't understood.
    Aml(AmlError),
    /// The object at this offset is too deep in others, or its path has too many segments.
    Deep(usize),
    /// Memory for a path was refused.
    OutOfMemory,
}

impl From<AmlError> for Ends {
    fn from(error: AmlError) -> Ends {
        Ends::Aml(error)
    }
}

impl From<AllocError> for Ends {
    fn from(_error: AllocError) -> Ends {
        Ends::OutOfMemory
    }
}

/// Where a term begins that isn't known, or that isn't read.
fn place_of(error: AmlError) -> usize {
    match error {
        AmlError::UnknownTerm(at) | AmlError::NotRead(at) => at,
        _ => 0,
    }
}

impl Ends {
    /// Whether the table is malformed by it. It isn't by what is run when the table is loaded, and by what isn't known.
    pub fn is_malformed(self) -> bool {
        matches!(
            self,
            Ends::Aml(AmlError::PastEnd(_) | AmlError::InvalidLength(_) | AmlError::InvalidName(_))
        )
    }

    /// Prints it.
    pub fn print(self, out: &mut Out) {
        let (words, at) = match self {
            Ends::Aml(AmlError::PastEnd(at)) => {
                ("the table or the block ends in what begins at #", at)
            }
            Ends::Aml(AmlError::InvalidLength(at)) => (
                "the length of a block isn't right at #",
                at,
            ),
            Ends::Aml(AmlError::InvalidName(at)) => ("there is no name at #", at),
            Ends::Aml(error) => ("no object of a known length begins at #", place_of(error)),
            Ends::Deep(at) => ("too many names lead to the object at #", at),
            Ends::OutOfMemory => ("out of memory", 0),
        };
        out.words(words, &[at as u64]);
    }
}

/// What comes after an object's opcode.
#[derive(Clone, Copy)]
enum Rest {
    /// Parts, of which the one after this many others is the name.
    Parts(usize),
    /// A block without a name.
    Block,
    /// A block that begins with the name and a method's flags.
    Method,
    /// A block that begins with the name and these parts, before a field's units.
    Units(&'static [Part]),
    /// A block that begins with the name and this many other bytes, before objects.
    Entered(usize),
}

/// What the object of an opcode is, and what comes after the opcode, unless that isn't known.
fn form_of(code: u16) -> Option<(&'static str, Rest)> {
    Some(match code {
        0x06 => ("Alias", Rest::Parts(1)),
        0x08 => ("Name", Rest::Parts(0)),
        0x10 => ("Scope", Rest::Entered(0)),
        0x14 => ("Method", Rest::Method),
        0x15 => ("External", Rest::Parts(0)),
        0x8A => ("CreateDWordField", Rest::Parts(2)),
        0x8B => ("CreateWordField", Rest::Parts(2)),
        0x8C => ("CreateByteField", Rest::Parts(2)),
        0x8D => ("CreateBitField", Rest::Parts(2)),
        0x8F => ("CreateQWordField", Rest::Parts(2)),
        0xA0 => ("If", Rest::Block),
        0xA1 => ("Else", Rest::Block),
        0xA2 => ("While", Rest::Block),
        0x5B01 => ("Mutex", Rest::Parts(0)),
        0x5B02 => ("Event", Rest::Parts(0)),
        0x5B13 => ("CreateField", Rest::Parts(3)),
        0x5B80 => ("OperationRegion", Rest::Parts(0)),
        0x5B81 => ("Field", Rest::Units(&[Part::Byte])),
        0x5B82 => ("Device", Rest::Entered(0)),
        0x5B83 => ("Processor", Rest::Entered(6)),
        0x5B84 => ("PowerResource", Rest::Entered(3)),
        0x5B85 => ("ThermalZone", Rest::Entered(0)),
        0x5B86 => ("IndexField", Rest::Units(&[Part::Name, Part::Byte])),
        0x5B87 => {
            let before = &[Part::Name, Part::Argument, Part::Byte];
            ("BankField", Rest::Units(before))
        }
        0x5B88 => ("DataRegion", Rest::Parts(0)),
        _ => return None,
    })
}

/// The parts after an opcode.
fn parts_after(code: u16) -> Option<&'static [Part]> {
    match code {
        0x06 => Some(&[Part::Name, Part::Name]),
        0x08 => Some(&[Part::Name, Part::Argument]),
        0x10 | 0x14 => Some(&[Part::Block]),
        _ => parts_of(code),
    }
}

/// An object: what it is, where its name begins and what it is, its value, where the objects in it begin, where a
/// field's units begin, between which offsets its own bytes are, and where it ends.
#[derive(Clone, Copy)]
struct Found<'a> {
    kind: &'static str,
    name: Option<(usize, Name)>,
    value: Value<'a>,
    inner: Option<usize>,
    units: Option<usize>,
    own: (usize, usize),
    end: usize,
}

/// The object at an offset.
fn found_at(aml: &[u8], at: usize) -> Result<Found<'_>, AmlError>
    requires { at ≤ length aml.now }
    ensures after { IfOk result (λ found. at < found.end) }
    ensures within { IfOk result (λ found. found.end ≤ length aml.now) }
    ensures inner { IfOk result (λ found. IfSome found.inner (λ inner. inner < found.end → found.own.1 ≡ inner)) }
    ensures units { IfOk result (λ found. IfSome found.units (λ units. at ≤ units)) }
{
    let opcode = opcode_at(aml, at)?;
    let (Some((kind, rest)), Some(parts)) = (form_of(opcode.code), parts_after(opcode.code)) else {
        return Err(AmlError::UnknownTerm(at));
    };
    let end = parts_end(parts, aml, opcode.end)?;
    let mut found = Found {
        kind,
        name: None,
        value: Value::Hidden,
        inner: None,
        units: None,
        own: (at, end),
        end,
    };
    let (start, name) = match rest {
        Rest::Block => return Ok(found),
        Rest::Parts(before) => {
            let start = parts_end(parts.get(..before).unwrap_or(&[]), aml, opcode.end)?;
            (start, name_at(aml, start)?)
        }
        _ => name_in(aml, opcode.end)?,
    };
    found.name = Some((start, name));
    let mut beside = (name.end, end);
    match rest {
        Rest::Method => found.own.0 = name.end.saturating_add(1),
        Rest::Units(before) => {
            found.units = parts_end(before, aml, name.end).ok();
            beside.1 = found.units.unwrap_or(end).min(end);
            found.own = beside;
        }
        Rest::Entered(before) => {
            let inner = name.end.saturating_add(before);
            found.inner = Some(inner);
            beside.1 = inner.min(end);
            found.own = beside;
        }
        Rest::Parts(before) if before > 0 => beside = (opcode.end, start),
        _ => {}
    }
    let bytes = aml.get(beside.0..beside.1).unwrap_or(&[]);
    found.value = Value::beside_name(opcode.code, bytes);
    Ok(found)
}

/// The name that the block begins with whose PkgLength is at an offset, and where it is.
fn name_in(aml: &[u8], at: usize) -> Result<(usize, Name), AmlError>
    requires { at ≤ length aml.now }
    ensures after { IfOk result (λ found. at < found.1.end) }
    ensures within { IfOk result (λ found. found.1.end ≤ length aml.now) }
{
    let block = block_at(aml, at)?;
    Ok((block.start, name_at(&aml[..block.end], block.start)?))
}

/// An object that is entered: where it ends, and where its path begins in the letters.
#[derive(Clone, Copy)]
struct Scope {
    end: usize,
    start: usize,
}

/// The objects that are entered, the innermost one last, and the segments of their paths.
#[derive(Drop)]
struct Scopes {
    open: Vec<Scope>,
    letters: Vec<u8>,
}

impl Scopes {
    /// Leaves the objects that end up to an offset.
    fn leave(&mut self, at: usize) {
        for _ in 0..self.open.len() {
            match self.open.last() {
                Some(scope) if scope.end <= at => self.letters.truncate(scope.start),
                _ => return,
            }
            self.open.pop();
        }
    }

    /// Adds the path of a name to the letters, and returns where it begins.
    fn add_path(&mut self, aml: &[u8], at: usize, name: &Name) -> Result<usize, AllocError> {
        let outer = self.open.last().map_or(0, |scope| scope.start);
        let start = self.letters.len();
        let end = start.saturating_sub(name.ups.saturating_mul(4));
        if outer < end && aml.get(at) != Some(&b'\\') {
            self.letters.extend_from_within(outer..end)?;
        }
        self.letters
            .extend_from_slice(aml.get(name.first..name.end).unwrap_or(&[]))?;
        Ok(start)
    }
}

/// Shows the object at an offset of a table, and returns where the next one begins.
///
/// Fails if it isn't shown.
fn show_object<S: ShowObjects>(
    table: &[u8],
    at: usize,
    scopes: &mut Scopes,
    show: &mut S,
) -> Result<usize, Ends>
    requires { at < length table.now }
    ensures within { IfOk result (λ next. next ≤ length table.now) }
    ensures term { IfOk result (λ next. IsTerm S.shows at next show.old show.new) }
    ensures begun { IfErr result (λ e. IsBegun S.shows at show.old show.new) }
{
    scopes.leave(at);
    let aml = match scopes.open.last() {
        Some(scope) if at < scope.end && scope.end <= table.len() => &table[..scope.end],
        _ => table,
    };
    let found = found_at(aml, at)?;
    let start = scopes.letters.len();
    if let Some((from, name)) = &found.name {
        scopes.add_path(aml, *from, name)?;
        let segments = scopes.letters.len().saturating_sub(start) / 4;
        if scopes.open.len() >= DEEPEST || segments > DEEPEST {
            return Err(Ends::Deep(at));
        }
    }
    show.object(&Object {
        offset: at as u64,
        length: (found.end - at) as u64,
        own: (found.own.0 as u64, found.own.1 as u64),
        kind: found.kind,
        path: found
            .name
            .as_ref()
            .and_then(|_| scopes.letters.get(start..)),
        value: found.value,
    });
    match found.inner {
        Some(inner) if at < inner && inner < found.end => {
            let scope = Scope {
                end: found.end,
                start,
            };
            scopes.open.push(scope).map_err(AllocError::from)?;
            Ok(inner)
        }
        _ => {
            scopes.letters.truncate(start);
            if let Some(units) = found.units {
                show_units(&aml[..found.end], units, scopes, show)?;
            }
            Ok(found.end)
        }
    }
}

/// Shows the units of a field that have names, from an offset up to the end of the AML, or to one that isn't
/// understood.
fn show_units<S: ShowObjects>(
    aml: &[u8],
    start: usize,
    scopes: &mut Scopes,
    show: &mut S,
) -> Result<(), AllocError>
    ensures { Within S.shows start (length aml.now) show.old show.new }
{
    let (mut at, mut bit): (usize, u64) = (start, 0);
    'units: while at < aml.len() {
        let Ok(unit) = unit_at(aml, at) else {
            return Ok(());
        };
        if let Some(name) = &unit.name {
            let first = scopes.add_path(aml, at, name)?;
            show.object(&Object {
                offset: at as u64,
                length: (unit.end - at) as u64,
                own: (at as u64, unit.end as u64),
                kind: "FieldUnit",
                path: scopes.letters.get(first..),
                value: Value::Bits(bit, unit.bits),
            });
            scopes.letters.truncate(first);
        }
        bit = bit.saturating_add(unit.bits);
        at = unit.end;
    }
    Ok(())
}

/// Shows the objects of a table from an offset on, up to one that isn't understood.
pub(crate) fn show_objects<S: ShowObjects>(alloc: Global, table: &[u8], start: usize, show: &mut S)
    requires { start ≤ length table.now }
    ensures { IsPassed S.shows S.stops start (length table.now) show.old show.new }
{
    let mut scopes = Scopes {
        open: Vec::new(alloc),
        letters: Vec::new(alloc),
    };
    let mut at = start;
    'objects: while at < table.len() {
        match show_object(table, at, &mut scopes, show) {
            Ok(next) => at = next,
            Err(ends) => return show.ends(at as u64, ends),
        }
    }
}
