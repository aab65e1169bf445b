//! What was played, and what differed.

use crate::fault::Fault;
use crate::player::Way;
use crate::shown::shown;
use std::alloc::{AllocError, Global};

/// Counts, where the player is, and a line for each difference.
#[derive(Drop)]
pub struct Report {
    rows: u64,
    runs: u64,
    refused: u64,
    row: String,
    line: u64,
    differences: String,
}

impl Report {
    pub fn new(alloc: Global) -> Report {
        Report {
            rows: 0,
            runs: 0,
            refused: 0,
            row: String::new(alloc),
            line: 0,
            differences: String::new(alloc),
        }
    }

    pub fn begin_row(&mut self, alloc: Global, name: &str) -> Result<(), AllocError> {
        self.rows = self.rows.saturating_add(1);
        self.row = String::from_str(alloc, name)?;
        Ok(())
    }

    pub fn has_row(&self) -> bool {
        self.rows > 0
    }

    pub fn at_line(&mut self, line: u64) {
        self.line = line;
    }

    pub fn count_run(&mut self) {
        self.runs = self.runs.saturating_add(1);
    }

    /// A session that memory was refused in.
    pub fn count_refused(&mut self) {
        self.refused = self.refused.saturating_add(1);
    }

    pub fn is_right(&self) -> bool {
        self.differences.is_empty()
    }

    pub fn differs(&mut self, alloc: Global, what: &str) -> Result<(), AllocError> {
        let row = self.row.as_str();
        let line = self.line;
        let told = format!(in alloc; "  line {line}, {row}: {what}\n")?;
        self.differences.push_str(told.as_str())
    }

    pub fn cannot(&mut self, alloc: Global, fault: &Fault) -> Result<(), AllocError> {
        let what = format!(in alloc; "{fault}")?;
        self.differs(alloc, what.as_str())
    }

    pub fn status_differs(
        &mut self,
        alloc: Global,
        wanted: u8,
        came: u8,
    ) -> Result<(), AllocError> {
        let what = format!(in alloc; "status {came}, not {wanted}")?;
        self.differs(alloc, what.as_str())
    }

    /// Bytes of this kind differ from a place on.
    pub fn bytes_differ(
        &mut self,
        alloc: Global,
        kind: &str,
        place: usize,
        wanted: &[u8],
        came: &[u8],
    ) -> Result<(), AllocError> {
        let wanted = shown(alloc, wanted, place)?;
        let came = shown(alloc, came, place)?;
        let what = format!(in alloc;
            "{kind} differs from byte {place} on\n    wanted: {wanted}\n    came:   {came}"
        )?;
        self.differs(alloc, what.as_str())
    }

    /// The report as it is printed behind the file's name.
    pub fn told(&self, alloc: Global, way: Way) -> Result<String, AllocError> {
        let rows = self.rows;
        let runs = self.runs;
        let refused = self.refused;
        let differences = self.differences.as_str();
        match way {
            Way::Whole => format!(in alloc; "{rows} rows, {runs} runs\n{differences}"),
            Way::Short => {
                format!(in alloc; "{runs} sessions, {refused} short of memory\n{differences}")
            }
        }
    }
}
