//! Laws of the tables that are written: each is the contract of a function that does nothing.
ghost use Rattle.acpi_writer.specs.Words.{DsdtIsRead, SsdtIsRead, BgrtIsRead, BgrtIsValid, FacsIsRead, FadtIsRead, FadtIsValid, GicMadtIsRead, GicMadtIsValid, RiscvMadtIsRead, RiscvMadtIsValid, GtdtIsRead, GtdtIsValid, HpetIsRead, HpetIsValid, HpetInImage, MadtInImage, McfgInImage, PlatformInImage, LaidAreFound, MachineIsRead, TreeIsRead, MadtIsRead, MadtIsValid, MailboxIsRead, McfgIsRead, McfgIsValid, RootIsRead, RootIsValid, RsdpIsRead, SlitIsRead, SlitIsValid, SpcrIsRead, SpcrIsValid, SratIsRead, SratIsValid, IdsAreRead};

use std::alloc::Allocator;

/// A table that is written passes each check of a table, and `write_image` takes it.
pub fn tables_are_valid()
    ensures fadt { FadtIsValid }
    ensures madt { MadtIsValid }
    ensures gic_madt { GicMadtIsValid }
    ensures riscv_madt { RiscvMadtIsValid }
    ensures mcfg { McfgIsValid }
    ensures hpet { HpetIsValid }
    ensures bgrt { BgrtIsValid }
    ensures spcr { SpcrIsValid }
    ensures srat { SratIsValid }
    ensures slit { SlitIsValid }
    ensures gtdt { GtdtIsValid }
    // A root table passes the checks alone: `write_image` writes its own.
    ensures root { RootIsValid }
{}

/// What is read of a table that is written is exactly what was given.
pub fn tables_are_read<A: Allocator>()
    // The header has the revision and the ids.
    ensures ids { IdsAreRead }
    // An RSDP passes each check of an RSDP, has the OEMID, and leads to the XSDT.
    ensures rsdp { RsdpIsRead }
    // The pointers of a root table are the addresses, in order.
    ensures root { RootIsRead }
    // A DSDT is valid, and its AML is the caller's.
    ensures dsdt { DsdtIsRead }
    // And so is an SSDT.
    ensures ssdt { SsdtIsRead }
    // What calls of `Fadt` return.
    ensures fadt { FadtIsRead }
    // A reader finds a FACS where a memory has it.
    ensures facs { FacsIsRead }
    // The interrupt model of a MADT, and its processors, in order.
    ensures madt { MadtIsRead A }
    // And its mailbox, or that there is none.
    ensures mailbox { MailboxIsRead }
    // The GIC of a MADT of an Arm machine, each list in order.
    ensures gic_madt { GicMadtIsRead A }
    // The entries of a MADT of a RISC-V machine, in order.
    ensures riscv_madt { RiscvMadtIsRead }
    // The regions of an MCFG, in order.
    ensures mcfg { McfgIsRead }
    ensures hpet { HpetIsRead }
    ensures bgrt { BgrtIsRead }
    // The serial port of an SPCR; its name has a zero at its end.
    ensures spcr { SpcrIsRead }
    // The ranges of memory of a SRAT, in order; a processor is in the domain that was given for its id or uid, in the
    // last one of several, and in none if none was given.
    ensures srat { SratIsRead }
    // A SLIT's distance between two localities.
    ensures slit { SlitIsRead }
    // The timers of the platform are in order.
    ensures gtdt { GtdtIsRead }
{}

/// And so it is in an image by `write_image` that has the table as the first of its signature.
pub fn images_are_read<A: Allocator>()
    ensures madt { MadtInImage A }
    // What `platform_info` returns there, if it returns a platform.
    ensures platform { PlatformInImage A }
    ensures mcfg { McfgInImage }
    ensures hpet { HpetInImage }
{}

/// A machine that `write_tables` wrote is opened and read as it was passed in.
pub fn machine_is_read<A: Allocator>()
    ensures is_read { MachineIsRead A }
    // And so is one by `write_tables_without_rsdp` with an RSDP by `write_rsdp`.
    ensures tree { TreeIsRead A }
    // Valid tables that are laid one after the other are found by their addresses: of each signature the first.
    ensures laid { LaidAreFound }
{}
