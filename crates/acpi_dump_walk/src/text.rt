//! A table as lines of text.

use crate::aml::{Ends, Object, Value};
use crate::fault::Fault;
use crate::fields::{print_bytes, print_field, print_path, print_spaces};
use crate::out::Out;
use crate::walk::{Field, Group, Show, ShowObjects};

/// The text of a table: where it is written to, and how deep the structures lie that have begun.
#[derive(Drop)]
pub struct Text<'a> {
    pub out: &'a mut Out,
    pub depth: usize,
}

impl Show for Text<'_> {
    fn field(&mut self, shown: &Field<'_>) {
        print_field(shown, self.depth, self.out)
    }

    fn bytes(&mut self, offset: u64, bytes: &[u8]) {
        print_bytes(offset, bytes, self.depth, self.out)
    }

    fn begin(&mut self, group: &Group) {
        print_group(group, self.depth, self.out);
        self.depth = self.depth.saturating_add(1);
    }

    fn end(&mut self) {
        self.depth = self.depth.saturating_sub(1);
    }

    fn malformed(&mut self, offset: u64, fault: Fault) {
        print_indent(self.depth, self.out);
        self.out.text("malformed: ");
        fault.print(offset, self.out);
        self.out.text("\n")
    }
}

impl ShowObjects for Text<'_> {
    // Any state may come after any other.
    ghost shows = { λ _ _ _. Unit {0} };

    ghost stops = { λ _ _ _ _. Unit {0} };

    fn object(&mut self, object: &Object<'_>) {
        let out = &mut *self.out;
        let start = out.length();
        write!(out, "  {:04x}  ", object.offset);
        out.text(object.kind);
        if let Some(path) = object.path {
            out.text(" ");
            print_path(path, out);
        }
        print_spaces(out.since(start).len(), out);
        out.words("  % bytes", &[object.length]);
        if !matches!(object.value, Value::Hidden) {
            out.text("  ");
            object
                .value
                .print(object.path.unwrap_or(&[]), "\n            ", out);
        }
        out.text("\n")
    }

    fn ends(&mut self, _offset: u64, why: Ends) {
        self.out.text("  the list ends: ");
        why.print(self.out);
        self.out.text("\n")
    }
}

/// Prints the spaces that a line begins with.
pub(crate) fn print_indent(depth: usize, out: &mut Out) {
    out.text("  ");
    for _ in 0..depth {
        out.text("  ");
    }
}

/// Prints the heading of a structure.
fn print_group(group: &Group, depth: usize, out: &mut Out) {
    print_indent(depth, out);
    out.words("entry % at #", &[group.number, group.offset]);
    if let Some(kind) = group.kind {
        out.words(", type #", &[kind]);
    }
    out.text(": ");
    out.text(if group.name.is_empty() {
        "unknown"
    } else {
        group.name
    });
    out.text("\n")
}
