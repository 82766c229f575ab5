//! Laws of the dumps that are written. These functions run nothing.

ghost use Rattle.td_cli.specs.DumpLaws.{NamesOfTexts, DumpsOfTextsSay};

use td_vcd::laws::says_the_waves;

/// No name of the netlist that is read of a text has a newline.
pub fn names_of_texts()
    ensures { NamesOfTexts }
{}

/// Read back, a dump of the netlist that is read of a text says exactly its waves.
pub fn dumps_of_texts_say()
    ensures { DumpsOfTextsSay }
{
    names_of_texts();
    says_the_waves();
}
