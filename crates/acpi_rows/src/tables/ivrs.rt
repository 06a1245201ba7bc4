//! AMD's units that remap devices.
//!
//! - `record`: IVinfo;
//! - `blocks`: each with its type and its fields, and its device entries with their type, first and last device and
//!   settings, and what else their type has, and whether these have ended malformed before the first one is read
//!   and after the last one; then the same of the blocks, with how many there are between;
//! - `best`: the fields of the blocks of the best type;
//! - `unit SEGMENT ID`, `memory ID`.

use crate::out::Out;
use crate::words::{first_word, number_of};
use acpi_base::PhysicalRecord;
use acpi_iommu::{DeviceEntry, Ivrs, IvrsBlock, IvrsBlocks};

/// Prints what an IVRS contains.
pub(super) fn answer(out: Out<'_>, table: &[u8], call: &str, rest: &str) {
    let all = IvrsBlocks::over(table);
    let (segment, id) = first_word(rest);
    match call {
        "record" if table.len() < Ivrs::MIN_LENGTH => out.print(&"short"),
        "record" => out.show(&Ivrs::read(table).info),
        "blocks" => blocks(out, &all),
        "best" => match all.blocks_of_best_type() {
            Err(refusal) => out.show(&refusal),
            Ok(blocks) => {
                for block in blocks {
                    out.show(&block.fields());
                }
            }
        },
        "unit" => {
            let segment = (number_of(segment) % 0x10000) as u16;
            out.show(&all.block_for(segment, (number_of(id) % 0x10000) as u16));
        }
        _ => match all.memory_for((number_of(rest) % 0x10000) as u16) {
            Err(refusal) => out.show(&refusal),
            Ok(ranges) => out.list(ranges),
        },
    }
}

fn blocks(out: Out<'_>, all: &IvrsBlocks<'_>) {
    let mut blocks = all.blocks();
    let before = blocks.ended_malformed();
    let mut count = 0u32;
    for block in blocks.by_ref() {
        out.show(&(block.kind(), block.fields()));
        entries(out, &block);
        count = count.wrapping_add(1);
    }
    out.show(&(before, count, blocks.ended_malformed()));
}

fn entries(out: Out<'_>, block: &IvrsBlock<'_>) {
    let mut entries = block.entries();
    let before = entries.ended_malformed();
    for entry in entries.by_ref() {
        out.show(&(entry.kind(), entry.first(), entry.last(), entry.settings()));
        more(out, &entry);
    }
    out.show(&(before, entries.ended_malformed()));
}

/// What else the type of an entry has.
fn more(out: Out<'_>, entry: &DeviceEntry<'_>) {
    if let Some(source) = entry.alias() {
        out.show(&("as", source));
    }
    if let Some(settings) = entry.extended_settings() {
        out.show(&("more", settings));
    }
    if let Some(device) = entry.special() {
        out.show(&device);
    }
    if entry.kind() == 0xf0 {
        out.spread(&(
            (entry.hardware_id(), entry.compatible_id()),
            (entry.unique_id_format(), entry.unique_id()),
        ));
    }
}
