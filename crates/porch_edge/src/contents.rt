//! The bytes of six files in memory.
use crate::FileName;
use std::alloc::Global;
use std::marker::Model;
use std::mem;

/// Contracts see it as the bytes of each file.
#[derive(Drop)]
pub struct Contents {
    program: Vec<u8>,
    output: Vec<u8>,
    ck_a: Vec<u8>,
    ck_b: Vec<u8>,
    layouts: Vec<u8>,
    input: Vec<u8>,
}

impl Model for Contents {
    ghost use Rattle.porch_edge.specs.Files.{Files};

    ghost Value = { Files };

    ghost view = { λ c. record { program = c.program.items; output = c.output.items; ck_a = c.ck_a.items; ck_b = c.ck_b.items; layouts = c.layouts.items; input = c.input.items } };
}

impl Contents {
    ghost use Rattle.std.specs.Prelude.{◌≡◌};
    ghost use Rattle.porch_edge.specs.Files.{file_of, with_file, no_files};

    /// Six empty files.
    pub fn empty(alloc: Global) -> Contents
        ensures { result ≡ no_files }
    {
        Contents {
            program: Vec::new(alloc),
            output: Vec::new(alloc),
            ck_a: Vec::new(alloc),
            ck_b: Vec::new(alloc),
            layouts: Vec::new(alloc),
            input: Vec::new(alloc),
        }
    }

    /// The bytes of one file.
    pub fn get(&self, file: FileName) -> &[u8]
        ensures { result.now ≡ file_of file self.now }
    {
        match file {
            FileName::Program => &self.program,
            FileName::Output => &self.output,
            FileName::CkA => &self.ck_a,
            FileName::CkB => &self.ck_b,
            FileName::Layouts => &self.layouts,
            FileName::Input => &self.input,
        }
    }

    /// Puts other bytes into one file, and gives back those that it had.
    pub fn replace(&mut self, file: FileName, bytes: Vec<u8>) -> Vec<u8>
        ensures now { self.new ≡ with_file file self.old bytes.items }
        ensures before { result.items ≡ file_of file self.old }
    {
        match file {
            FileName::Program => mem::replace(&mut self.program, bytes),
            FileName::Output => mem::replace(&mut self.output, bytes),
            FileName::CkA => mem::replace(&mut self.ck_a, bytes),
            FileName::CkB => mem::replace(&mut self.ck_b, bytes),
            FileName::Layouts => mem::replace(&mut self.layouts, bytes),
            FileName::Input => mem::replace(&mut self.input, bytes),
        }
    }
}
