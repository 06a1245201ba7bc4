//! Calls over a memory: the steps of a scene, which also prints what is requested of its handler.
//!
//! A handler maps all it has from an address on (`generous`), or just what is requested (`exact`).

mod accepting;
mod all;
mod gathered;
mod guarded;
mod kept;
mod scene;
mod types;
mod ways;

use crate::handlers::{Exact, Printing};
use crate::out::Out;
use crate::words::first_word;
use acpi::AcpiHandler;
use acpi_image::MemoryImage;
use scene::Scene;

/// Plays a scene over the image of a file, or prints why the file is no image.
pub(crate) fn answer(out: Out<'_>, handler: &str, file: &[u8], lines: &str) {
    match MemoryImage::from_bytes(out.alloc(), file) {
        Err(refusal) => out.show(&refusal),
        Ok(image) if handler == "exact" => play(out, &Exact { inner: &image }, lines),
        Ok(image) => play(out, &image, lines),
    }
}

/// Plays a scene over a handler, each line being a step.
fn play<H: AcpiHandler>(out: Out<'_>, handler: &H, lines: &str) {
    let printing = Printing {
        inner: handler,
        out,
    };
    let mut scene = Scene::new(out, &printing);
    for line in lines.lines() {
        let (call, rest) = first_word(line);
        scene.perform(call, rest);
        out.end();
    }
}
