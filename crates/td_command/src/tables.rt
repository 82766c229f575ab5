//! What the words say of tables.

ghost use Rattle.std.specs.Prelude.{◌≡◌};
ghost use Rattle.clap.specs.Words.{found_of, rows_of};
ghost use Rattle.td_command.specs.CommandLine.{IsAnswered};
ghost use Rattle.td_command.specs.Tables.{table_by, stray_by, SaysFlags, SaysTables};

use crate::options::flag_given;
use clap::ArgMatches;
use td_request::{Stray, Table};

/// Which options of tables are given.
#[derive(Clone, Copy, Debug, Drop)]
struct Flags {
    each: bool,
    changes: bool,
    figures: bool,
    vectors: bool,
    hazards: bool,
}

/// What the words say of tables: the one that is asked for, and an option that doesn't go with the
/// others.
#[derive(Clone, Copy, Debug, Drop)]
pub(crate) struct Tables {
    pub(crate) table: Option<Table>,
    pub(crate) stray: Option<Stray>,
}

/// The table that these options ask for.
fn table_by(flags: Flags) -> Option<Table>
    ensures { result ≡ table_by flags }
{
    if flags.hazards {
        return Some(Table::Hazards);
    }
    if !flags.each {
        return None;
    }
    if flags.changes {
        let figures = flags.figures;
        return Some(Table::Changes { figures });
    }
    Some(Table::Delays)
}

/// The first of these options that doesn't go with the others.
fn stray_by(flags: Flags) -> Option<Stray>
    ensures { result ≡ stray_by flags }
{
    if flags.hazards && (flags.each || (flags.changes || flags.figures)) {
        return Some(Stray::Hazards);
    }
    if flags.changes && !flags.each {
        return Some(Stray::Changes);
    }
    if flags.figures && !flags.changes {
        return Some(Stray::Figures);
    }
    if flags.vectors && !flags.each {
        return Some(Stray::Vectors);
    }
    None
}

/// Which options of tables are given.
fn flags_in(matches: &ArgMatches<'_>) -> Option<Flags>
    ensures { IsAnswered (SaysFlags (rows_of (found_of matches.now))) result }
{
    let each = flag_given(matches, "each")?;
    let changes = flag_given(matches, "changes")?;
    let figures = flag_given(matches, "figures")?;
    let vectors = flag_given(matches, "vectors")?;
    let hazards = flag_given(matches, "hazards")?;
    Some(Flags {
        each,
        changes,
        figures,
        vectors,
        hazards,
    })
}

/// What the words say of tables.
pub(crate) fn tables_in(matches: &ArgMatches<'_>) -> Option<Tables>
    ensures { IsAnswered (SaysTables (rows_of (found_of matches.now))) result }
{
    let flags = flags_in(matches)?;
    Some(Tables {
        table: table_by(flags),
        stray: stray_by(flags),
    })
}
