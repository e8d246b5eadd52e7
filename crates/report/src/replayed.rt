//! Writes of blocks, and blocks that replay changes.

use crate::fields::{begin_object, end_object, write_bytes, write_number, write_set};
use crate::part::{Done, Form, Part};
use crate::text::write_ids;
use json::Writer;
use patch_sets::write::BlockWrite;

impl Part for BlockWrite {
    ghost use Rattle.report.specs.Crashes.{write_text};
    ghost use Rattle.report.specs.CrashesJson.{write_json};

    ghost text = { write_text };

    ghost json = { write_json };

    fn write(&self, out: &mut String) -> Done {
        let block = self.block;
        write!(out, "write block {block}:")?;
        write_ids(out, self.ids)?;
        out.push_str("\n")
    }

    fn write_json(&self, out: &mut Writer, _form: Form) -> Done {
        begin_object(out)?;
        write_number(out, "block", u128::from(self.block))?;
        write_set(out, "patches", self.ids)?;
        end_object(out)
    }
}

/// A block that replay changes, with its bytes after replay.
#[derive(Clone, Copy, Drop)]
pub struct ReplayedBlock {
    pub block: u8,
    pub bytes: [u8; 128],
}

impl Part for ReplayedBlock {
    ghost use Rattle.report.specs.Explained.{replayed_text};
    ghost use Rattle.report.specs.CrashesJson.{replayed_json};

    ghost text = { replayed_text };

    ghost json = { replayed_json };

    fn write(&self, out: &mut String) -> Done {
        let block = self.block;
        let bytes = hex::encode(*out.allocator(), self.bytes.as_slice())?;
        write!(out, "replay block {block}: ")?;
        out.push_str(bytes.as_str())?;
        out.push_str("\n")
    }

    fn write_json(&self, out: &mut Writer, form: Form) -> Done {
        begin_object(out)?;
        write_number(out, "block", u128::from(self.block))?;
        write_bytes(out, "bytes", self.bytes.as_slice(), form)?;
        end_object(out)
    }
}
