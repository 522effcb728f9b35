//! The tables and lists below the drawing: the reads of the query, its charges by update, and its charges that are not drawn.

use crate::charge_list::{ChargeList, list_width};
use crate::charge_table::ChargeTable;
use crate::table::{Table, table_width};
use esr_timeline_data::Scene;
use std::alloc::{AllocError, Global};

/// The tables of a scene that it needs in a picture of a width.
#[derive(Drop)]
pub struct Tables {
    reads: Option<Table>,
    sums: Option<ChargeTable>,
    charges: Option<ChargeList>,
}

impl Tables {
    /// Returns the width that the tables of a scene need.
    pub fn width(scene: &Scene<'_>) -> u32 {
        table_width(scene).max(list_width(scene))
    }

    /// Returns the tables of a scene in a picture of this width.
    pub fn of(alloc: Global, scene: &Scene<'_>, width: u32) -> Result<Tables, AllocError> {
        Ok(Tables {
            reads: Table::of(alloc, scene, width)?,
            sums: ChargeTable::of(alloc, scene, width)?,
            charges: ChargeList::of(alloc, scene, width)?,
        })
    }

    /// Returns the height of the table of the reads.
    fn reads_height(&self) -> u32 {
        self.reads.as_ref().map_or(0, |table| table.height())
    }

    /// Returns the height of the table of the sums.
    fn sums_height(&self) -> u32 {
        self.sums.as_ref().map_or(0, |table| table.height())
    }

    /// Returns the height of all tables.
    pub fn height(&self) -> u32 {
        let list = self.charges.as_ref().map_or(0, |list| list.height());
        self.reads_height()
            .saturating_add(self.sums_height())
            .saturating_add(list)
    }

    /// Appends the tables, of which the first baseline is at `top`.
    pub fn push(&self, out: &mut String, scene: &Scene<'_>, top: u32) -> Result<(), AllocError> {
        let sums = top.saturating_add(self.reads_height());
        let charges = sums.saturating_add(self.sums_height());
        if let Some(table) = &self.reads {
            table.push(out, scene, top)?;
        }
        if let Some(table) = &self.sums {
            table.push(out, scene, sums)?;
        }
        if let Some(list) = &self.charges {
            list.push(out, scene, charges)?;
        }
        Ok(())
    }
}
