// Tables of comma-separated values, written into a folder.
use crate::failure::{Failure, in_words};
use crate::files::write_whole;
use csv::{Writer, WriterBuilder};
use serde::Serialize;
use std::alloc::{AllocError, Global};

// A table: its rows under the names of its columns.
#[derive(Drop)]
pub(crate) struct Table {
    heap: Global,
    writer: Writer<Vec<u8>>,
}

impl Table {
    // A table without rows, of columns that are named one after another with commas between them.
    // Kept: a table in memory is refused for want of it alone.
    pub(crate) fn new(heap: Global, columns: &str) -> Result<Table, AllocError> {
        let mut builder = WriterBuilder::new();
        builder.has_headers(false);
        let mut writer = builder.from_writer(Vec::new(heap));
        writer
            .write_record(columns.split(','))
            .map_err(|_| AllocError)?;
        Ok(Table { heap, writer })
    }

    pub(crate) fn add<T: Serialize>(&mut self, row: &T) -> Result<(), AllocError> {
        self.writer
            .serialize(self.heap, row)
            .map_err(|_| AllocError)
    }

    // Its bytes.
    pub(crate) fn finish(self) -> Result<Vec<u8>, AllocError> {
        self.writer.into_inner().map_err(|_| AllocError)
    }
}

// A folder for tables, as it is named.
#[derive(Clone, Copy)]
pub(crate) struct TableFolder<'a> {
    pub(crate) rt: &'a HostRuntime,
    pub(crate) name: &'a str,
}

impl TableFolder<'_> {
    // The path of a table.
    fn path(&self, table: &str) -> Result<String, AllocError> {
        let folder = self.name;
        let between = if folder.ends_with('/') { "" } else { "/" };
        format!(in self.rt.alloc(); "{folder}{between}{table}")
    }

    // Writes a table under its name.
    pub(crate) fn write(&self, table: &str, rows: Table) -> Result<(), Failure> {
        let heap = self.rt.alloc();
        let bytes = rows.finish()?;
        let path = self.path(table)?;
        in_words(heap, write_whole(self.rt, path.as_str(), bytes.as_slice()))
    }
}
