//! Makes an image of memory from files.
//!
//! `acpi_pack OUT memory ADDRESS FILE [ADDRESS FILE]...` puts each file at its address, and
//! `acpi_pack OUT tables FILE...` makes an RSDP and an XSDT that lists the tables that the files
//! are. Before OUT `--fix-checksum` sets the tables' checksums, and `--raw` makes plain memory
//! of the image.
#![tactic(auto)]

use acpi_cli::storage::HostStorage;
use acpi_cli::{args, borrowed};
use acpi_pack_lib::files::HostFiles;
use acpi_pack_lib::program::pack;
use std::io;
use std::process::ExitCode;

fn main(rt: HostRuntime) -> ExitCode {
    ExitCode::from(status(&rt).unwrap_or(1))
}

/// The status of the program over the process's arguments, files, storage and outputs.
///
/// Fails if a write fails or memory runs out.
fn status(rt: &HostRuntime) -> io::Result<u8> {
    let args = args(rt)?;
    let args = borrowed(rt.alloc(), &args)?;
    let (mut files, mut storage) = (HostFiles::new(rt), HostStorage::new(rt));
    let (mut out, mut err) = (io::writer(rt), rt.stderr());
    pack(
        rt.alloc(),
        &args,
        &mut files,
        &mut storage,
        &mut out,
        &mut err,
    )
}
