//! A sink whose lines of progress take each other's place.

ghost use Rattle.std.specs.Prelude.{◌≡◌, true, [], IfOk, OnOk};
ghost use Rattle.td_text.specs.Output.{Writes, WritesSome};
ghost use Rattle.td_terminal.specs.Shown.{shown, GoesUp, IsShown};

use td_text::{DeviceFault, Sink};

/// How a line of progress begins: of a search, of a table.
const SEARCH: &[u8] = b"nodes ";

const TABLE: &[u8] = b"rows ";

/// How a row of a table begins, which takes the place of a line of progress, and stays.
const ROW: &[u8] = b"each ";

/// Goes to the line above and clears it (ECMA-48: CUU and EL).
const UP: &[u8] = b"\x1b[A\x1b[2K";

/// Hands all on to a sink. At a terminal a line of progress, or a row of a table, takes the place of
/// the line of progress before it, where nothing came between the two.
#[derive(Drop)]
pub struct InPlace<S> {
    sink: S,
    is_in_place: bool,
    /// Whether the last line is one of progress.
    is_progress: bool,
    /// Whether the last line has its end.
    is_ended: bool,
}

impl<S: Sink> InPlace<S> {
    /// Hands all on to this sink; in place, if that is asked for.
    pub fn new(sink: S, is_in_place: bool) -> Self
        ensures sink { result.sink ≡ sink }
        ensures place { result.is_in_place ≡ is_in_place }
    {
        InPlace {
            sink,
            is_in_place,
            is_progress: false,
            is_ended: true,
        }
    }

    /// The sink to which all goes.
    pub fn sink(&self) -> &S
        ensures { result.now ≡ self.now.sink }
    {
        &self.sink
    }

    // Writes some of the bytes. Where they begin a line of progress or a row after a line of
    // progress, they take that one's place.
    fn write_in_place(&mut self, bytes: &[u8]) -> Result<usize, DeviceFault>
        requires { self.old.is_in_place ≡ true }
        ensures place { self.new.is_in_place ≡ true }
        ensures some { WritesSome result (shown true (S.output self.old.sink)) (shown true (S.output self.new.sink)) bytes.now }
        ensures shown { IfOk result (IsShown (S.output self.old.sink) (S.output self.new.sink) bytes.now) }
    {
        self.begin(bytes)?;
        let taken = self.sink.write(bytes)?;
        if taken > 0 {
            self.is_ended = bytes[taken - 1] == b'\n';
        }
        Ok(taken)
    }

    // Goes to where these bytes are to stand.
    fn begin(&mut self, bytes: &[u8]) -> Result<(), DeviceFault>
        ensures place { self.new.is_in_place ≡ self.old.is_in_place }
        ensures kept { Writes result (shown true (S.output self.old.sink)) (shown true (S.output self.new.sink)) [] }
        ensures up { OnOk result (GoesUp (S.output self.old.sink) (S.output self.new.sink)) }
    {
        if self.is_ended {
            let was_progress = self.is_progress;
            self.is_progress = bytes.starts_with(SEARCH) || bytes.starts_with(TABLE);
            if was_progress && (self.is_progress || bytes.starts_with(ROW)) {
                self.sink.write_all(UP)?;
            }
        }
        Ok(())
    }
}

impl<S: Sink> Sink for InPlace<S> {
    ghost use Rattle.td_terminal.specs.Shown.{shown};

    ghost output = { λ it. shown it.is_in_place (S.output it.sink) };

    fn write(&mut self, bytes: &[u8]) -> Result<usize, DeviceFault> {
        if self.is_in_place {
            self.write_in_place(bytes)
        } else {
            self.sink.write(bytes)
        }
    }
}
