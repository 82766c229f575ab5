//! What a report says of a certificate that is accepted.

ghost use Rattle.std.specs.Prelude.{◌≡◌, ◌++◌, ◌∷◌, ◌==◌, ◌&&◌, [], map, not, is_some, if◌then◌else◌, IfOk, OnOk};
ghost use Rattle.td_certificate.specs.Questions.{holds_none, is_at_once};
ghost use Rattle.td_certificate.specs.Plain.{has_level};
ghost use Rattle.td_certificate.specs.declared.question.Version.TheVariants as of_version;
ghost use Rattle.td_certificate.specs.Spelling.{DefaultField, OutputField, FirstField, SecondField, HoldField, FlipsField, AtField, KeepField, fields_of};
ghost use Rattle.td_lines.specs.declared.line.Line.TheVariants as line;
ghost use Rattle.td_answer.specs.Claims.{accepted_line, claimed_line, field_line, told_line, question_lines, claim_lines};

use crate::pins::{marks, trits};
use std::alloc::{AllocError, Global};
use td_certificate::{Certificate, Claim, Question, Terms, Version, conditions_text};
use td_lines::{Label, Line, Moments, Report};

/// The line of the time of an accepted certificate, and of its other moment where that is another
/// one.
fn accepted_line(time: u64, high: u64) -> Line
    ensures { result ≡ accepted_line time high }
{
    if time == high {
        return Line::Accepted(time);
    }
    Line::AcceptedBetween { time, high }
}

/// The line of what an accepted certificate claims.
fn claimed_line(claim: &Option<Claim>) -> Line
    ensures { result ≡ claimed_line claim.now }
{
    match claim {
        None => Line::AcceptedNone,
        Some(claim) => accepted_line(claim.time, claim.high),
    }
}

/// Whether a row of trits has a level.
fn has_level(row: &str) -> bool
    ensures { result ≡ has_level row.now }
{
    row.bytes().any(|byte| byte == b'0' || byte == b'1')
}

/// Whether no input is held.
fn holds_none(held: &[bool]) -> bool
    ensures { result ≡ holds_none held.now }
{
    held.iter().all(|held| !*held)
}

/// Whether all inputs change at moment 0.
fn is_at_once(moments: &[u64]) -> bool
    ensures { result ≡ is_at_once moments.now }
{
    moments.iter().all(|moment| *moment == 0)
}

/// The line of the moments of inputs.
fn moments_line(alloc: Global, question: &Question) -> Result<Line, AllocError>
    ensures { IfOk result (λ line. line ≡ field_line question.now AtField) }
{
    let moments = Vec::from_slice(alloc, question.moments())?;
    Ok(Line::At(Moments::new(moments)))
}

/// Appends which pairs are admitted.
fn push_pins(alloc: Global, report: &mut Report, question: &Question) -> Result<(), AllocError>
    ensures { OnOk result (report.new ≡ report.old ++ map (field_line question.now) (fields_of of_version.Second)) }
{
    let admit = question.admit();
    let first = trits(alloc, admit.pins(), false)?;
    let second = trits(alloc, admit.pins(), true)?;
    let held = marks(alloc, admit.held())?;
    report.four(
        Line::First(Label::new(first)),
        Line::Second(Label::new(second)),
        Line::Hold(Label::new(held)),
        Line::Flips(u64::from(admit.flips())),
    )
}

/// Appends which pairs are admitted, and when inputs change.
fn push_dated(alloc: Global, report: &mut Report, question: &Question) -> Result<(), AllocError>
    ensures { OnOk result (report.new ≡ report.old ++ map (field_line question.now) (fields_of of_version.Third)) }
{
    let line = moments_line(alloc, question)?;
    push_pins(alloc, report, question)?;
    report.add(line)
}

/// Appends the delays of gates that state none, where they aren't plain.
fn tell_default(report: &mut Report, terms: &Terms) -> Result<(), AllocError>
    ensures { OnOk result (report.new ≡ report.old ++
        (if not (terms.now.default.rise == 1 && terms.now.default.fall == 1) then line.Default terms.now.default.rise terms.now.default.fall ∷ [] else [])) }
{
    if terms.rise == 1 && terms.fall == 1 {
        return Ok(());
    }
    report.add(Line::Default {
        rise: u64::from(terms.rise),
        fall: u64::from(terms.fall),
    })
}

/// Appends which outputs are asked about, where some are.
fn tell_outputs(alloc: Global, report: &mut Report, terms: &Terms) -> Result<(), AllocError>
    ensures { OnOk result (report.new ≡ report.old ++
        (if is_some terms.now.outputs then line.OutputNumbers terms.now.outputs ∷ [] else [])) }
{
    match &terms.outputs {
        None => Ok(()),
        Some(numbers) => {
            let numbers = Vec::from_slice(alloc, numbers)?;
            report.add(Line::OutputNumbers(Some(Moments::new(numbers))))
        }
    }
}

/// Appends how the netlist is read, where that isn't plain.
fn tell_terms(alloc: Global, report: &mut Report, question: &Question) -> Result<(), AllocError>
    ensures { OnOk result (report.new ≡ report.old ++ (told_line question.now DefaultField ++ told_line question.now OutputField)) }
{
    match question.terms() {
        None => Ok(()),
        Some(terms) => {
            tell_default(report, terms)?;
            tell_outputs(alloc, report, terms)
        }
    }
}

/// Appends what is pinned in the first vector, where anything is.
fn tell_first(alloc: Global, report: &mut Report, question: &Question) -> Result<(), AllocError>
    ensures { OnOk result (report.new ≡ report.old ++ told_line question.now FirstField) }
{
    let row = trits(alloc, question.admit().pins(), false)?;
    if !has_level(&row) {
        return Ok(());
    }
    report.add(Line::First(Label::new(row)))
}

/// And in the second.
fn tell_second(alloc: Global, report: &mut Report, question: &Question) -> Result<(), AllocError>
    ensures { OnOk result (report.new ≡ report.old ++ told_line question.now SecondField) }
{
    let row = trits(alloc, question.admit().pins(), true)?;
    if !has_level(&row) {
        return Ok(());
    }
    report.add(Line::Second(Label::new(row)))
}

/// Appends which inputs are held, where any is.
fn tell_held(alloc: Global, report: &mut Report, question: &Question) -> Result<(), AllocError>
    ensures { OnOk result (report.new ≡ report.old ++ told_line question.now HoldField) }
{
    let held = question.admit().held();
    if holds_none(held) {
        return Ok(());
    }
    let row = marks(alloc, held)?;
    report.add(Line::Hold(Label::new(row)))
}

/// Appends at how many inputs bits may differ, where not at all.
fn tell_flips(report: &mut Report, question: &Question) -> Result<(), AllocError>
    ensures { OnOk result (report.new ≡ report.old ++ told_line question.now FlipsField) }
{
    let flips = question.admit().flips();
    if flips as usize == question.inputs() {
        return Ok(());
    }
    report.add(Line::Flips(u64::from(flips)))
}

/// Appends when inputs change, where one does later than at moment 0.
fn tell_moments(alloc: Global, report: &mut Report, question: &Question) -> Result<(), AllocError>
    ensures { OnOk result (report.new ≡ report.old ++ told_line question.now AtField) }
{
    if is_at_once(question.moments()) {
        return Ok(());
    }
    let line = moments_line(alloc, question)?;
    report.add(line)
}

/// Appends which conditions pairs keep, where there are any.
fn tell_keep(alloc: Global, report: &mut Report, question: &Question) -> Result<(), AllocError>
    ensures { OnOk result (report.new ≡ report.old ++ told_line question.now KeepField) }
{
    let keep = question.keep();
    if keep.is_empty() {
        return Ok(());
    }
    let row = conditions_text(alloc, keep)?;
    report.add(Line::Keep(Label::new(row)))
}

/// Appends what a certificate of the fourth version is about, where it isn't plain.
fn tell_all(alloc: Global, report: &mut Report, question: &Question) -> Result<(), AllocError>
    ensures { OnOk result (report.new ≡ report.old ++ question_lines of_version.Fourth question.now) }
{
    tell_terms(alloc, report, question)?;
    tell_first(alloc, report, question)?;
    tell_second(alloc, report, question)?;
    tell_held(alloc, report, question)?;
    tell_flips(report, question)?;
    tell_moments(alloc, report, question)?;
    tell_keep(alloc, report, question)
}

/// Appends the lines that say what a certificate is about, as its text of this version has them.
pub(crate) fn push_question(
    alloc: Global,
    report: &mut Report,
    version: Version,
    question: &Question,
) -> Result<(), AllocError>
    ensures { OnOk result (report.new ≡ report.old ++ question_lines version question.now) }
{
    match version {
        Version::First => Ok(()),
        Version::Second => push_pins(alloc, report, question),
        Version::Third => push_dated(alloc, report, question),
        Version::Fourth => tell_all(alloc, report, question),
    }
}

/// The report of a certificate that is accepted: what it claims, and what it is about.
pub(crate) fn accepted(alloc: Global, certificate: &Certificate) -> Result<Report, AllocError>
    ensures { IfOk result (λ report. report ≡ claim_lines certificate.now) }
{
    let mut report = Report::new(alloc);
    report.add(claimed_line(&certificate.claim))?;
    push_question(
        alloc,
        &mut report,
        certificate.version(),
        &certificate.question,
    )?;
    Ok(report)
}
