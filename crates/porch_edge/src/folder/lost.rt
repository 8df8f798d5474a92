//! The files of which a sync has failed.
ghost use Rattle.std.specs.Prelude.{◌≡◌};
ghost use Rattle.porch_edge.specs.Folder.{is_lost, no_lost, with_lost, StayLost};

use crate::FileName;

/// The files that are lost: a sync of them has failed. The system may have dropped what was written, and its next sync
/// may say nothing of that.
#[derive(Clone, Copy)]
pub struct LostFiles {
    pub program: bool,
    pub output: bool,
    pub ck_a: bool,
    pub ck_b: bool,
    pub layouts: bool,
    pub input: bool,
}

impl LostFiles {
    /// No file is lost.
    pub fn none() -> LostFiles
        ensures { result ≡ no_lost }
    {
        LostFiles {
            program: false,
            output: false,
            ck_a: false,
            ck_b: false,
            layouts: false,
            input: false,
        }
    }

    /// Whether this file is lost.
    pub fn has(self, file: FileName) -> bool
        ensures { result ≡ is_lost self file }
    {
        match file {
            FileName::Program => self.program,
            FileName::Output => self.output,
            FileName::CkA => self.ck_a,
            FileName::CkB => self.ck_b,
            FileName::Layouts => self.layouts,
            FileName::Input => self.input,
        }
    }

    /// This file is lost from now on, as are those that were.
    #[tactic(auto, using(crate::proofs::StaysLost::stay_lost))]
    pub fn add(&mut self, file: FileName)
        ensures now { self.new ≡ with_lost self.old file }
        ensures stay { StayLost self.old self.new }
    {
        match file {
            FileName::Program => self.program = true,
            FileName::Output => self.output = true,
            FileName::CkA => self.ck_a = true,
            FileName::CkB => self.ck_b = true,
            FileName::Layouts => self.layouts = true,
            FileName::Input => self.input = true,
        }
    }
}
