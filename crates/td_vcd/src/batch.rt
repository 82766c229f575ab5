//! Bytes that are gathered before they are written.

ghost use Rattle.std.specs.Prelude.{◌≡◌};
ghost use Rattle.td_vcd.specs.Text.{level_character};

use itoa::Buffer;
use std::alloc::{AllocError, Global};
use std::marker::Model;
use td_gates::Level;
use td_nets::{Name, Unit};
use td_text::{DeviceFault, Sink};

/// How many bytes are gathered before they are written.
const FULL: usize = 65_536;

/// How many digits there are in a variable's code.
const BASE: usize = 94;

/// The character of a level.
fn character(level: Level) -> u8
    ensures { result ≡ level_character level }
{
    match level {
        Level::Zero => b'0',
        Level::One => b'1',
        Level::X => b'x',
    }
}

/// The bytes of a text that are still to be written.
#[derive(Drop)]
pub struct Batch {
    bytes: Vec<u8>,
}

impl Model for Batch {
    ghost use Rattle.std.specs.Prelude.{List, ℕ};

    ghost Value = { List ℕ };

    ghost view = { λ batch. batch.bytes.items };
}

impl Batch {
    ghost use Rattle.std.specs.Prelude.{◌≡◌, ◌++◌, ◌∷◌, [], OnOk, OnErr};
    ghost use Rattle.td_text.specs.Output.{SentTo, Sent, Failed};
    ghost use Rattle.td_nets.specs.Views.{name_of};
    ghost use Rattle.td_nets.specs.Printed.{printed};
    ghost use Rattle.td_vcd.specs.Text.{Number, Sets, code, numeral, ended, timescale, scope, declaration};

    /// An empty batch.
    pub fn new(alloc: Global) -> Batch
        ensures { result ≡ [] }
    {
        Batch {
            bytes: Vec::new(alloc),
        }
    }

    /// Writes the bytes if there are many.
    pub fn make_space<W: Sink>(&mut self, out: &mut W) -> Result<(), DeviceFault>
        ensures ok { OnOk result (SentTo (W.output out.old) (W.output out.new) self.old self.new) }
        ensures err { OnErr result (Failed (W.output out.old) (W.output out.new) self.old) }
    {
        if self.bytes.len() >= FULL {
            out.write_all(self.bytes.as_slice())?;
            self.bytes.clear();
        }
        Ok(())
    }

    /// Writes the last bytes.
    pub fn finish<W: Sink>(self, out: &mut W) -> Result<(), DeviceFault>
        ensures ok { OnOk result (Sent (W.output out.old) (W.output out.new) self) }
        ensures err { OnErr result (Failed (W.output out.old) (W.output out.new) self) }
    {
        out.write_all(self.bytes.as_slice())
    }

    /// Appends bytes.
    pub fn push(&mut self, bytes: &[u8]) -> Result<(), AllocError>
        ensures { OnOk result (self.new ≡ self.old ++ bytes.now) }
    {
        self.bytes.extend_from_slice(bytes)?;
        Ok(())
    }

    /// Appends a byte.
    fn byte(&mut self, byte: u8) -> Result<(), AllocError>
        ensures { OnOk result (self.new ≡ self.old ++ byte ∷ []) }
    {
        self.bytes.push(byte)?;
        Ok(())
    }

    /// Appends a number in decimal digits.
    fn digits(&mut self, number: u64) -> Result<(), AllocError>
        ensures { OnOk result (self.new ≡ self.old ++ numeral number) }
    {
        self.push(Buffer::new().format(number).as_bytes())
    }

    /// Appends the printed form of a name.
    fn name(&mut self, name: &Name) -> Result<(), AllocError>
        ensures { OnOk result (self.new ≡ self.old ++ printed (name_of name.now)) }
    {
        name.print(&mut self.bytes)?;
        Ok(())
    }

    /// Appends the code of a variable: its digits in base 94, the least first, each as the
    /// character 33 + digit.
    fn code(&mut self, variable: usize) -> Result<(), AllocError>
        ensures { OnOk result (self.new ≡ self.old ++ code variable) }
    {
        let mut rest = variable;
        while rest >= BASE {
            self.byte(33 + (rest % BASE) as u8)?;
            rest /= BASE;
        }
        self.byte(33 + rest as u8)
    }

    /// Appends the line that says how long a step takes.
    pub fn timescale(&mut self, unit: Unit) -> Result<(), AllocError>
        ensures { OnOk result (self.new ≡ self.old ++ ended (timescale unit)) }
    {
        self.push(b"$timescale ")?;
        self.digits(u64::from(unit.magnitude))?;
        self.push(b" ")?;
        self.push(unit.scale.word())?;
        self.push(b" $end\n")
    }

    /// Appends the line that begins a module, by a copy of its name.
    pub fn scope(&mut self, alloc: Global, name: &[u8]) -> Result<(), AllocError>
        ensures { OnOk result (self.new ≡ self.old ++ ended (scope name.now)) }
    {
        let mut text = Vec::new(alloc);
        text.extend_from_slice(name)?;
        self.push(b"$scope module ")?;
        self.name(&Name { text, bit: None })?;
        self.push(b" $end\n")
    }

    /// Appends the line that declares a variable.
    pub fn declaration(&mut self, variable: usize, name: &Name) -> Result<(), AllocError>
        ensures { OnOk result (self.new ≡ self.old ++ ended (declaration variable (name_of name.now))) }
    {
        self.push(b"$var wire 1 ")?;
        self.code(variable)?;
        self.push(b" ")?;
        self.name(name)?;
        self.push(b" $end\n")
    }

    /// Appends the line of a number.
    pub fn number(&mut self, number: u64) -> Result<(), AllocError>
        ensures { OnOk result (self.new ≡ self.old ++ ended (Number number)) }
    {
        self.push(b"#")?;
        self.digits(number)?;
        self.push(b"\n")
    }

    /// Appends the line that gives a variable a level.
    pub fn level(&mut self, variable: usize, level: Level) -> Result<(), AllocError>
        ensures { OnOk result (self.new ≡ self.old ++ ended (Sets variable level)) }
    {
        self.byte(character(level))?;
        self.code(variable)?;
        self.push(b"\n")
    }
}
