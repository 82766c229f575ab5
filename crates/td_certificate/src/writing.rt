//! Writing a certificate's text.

ghost use Rattle.std.specs.Char.{encode_utf8};
ghost use Rattle.std.specs.Prelude.{◌≡◌, false, ◌++◌, ◌∷◌, [], if◌then◌else◌, map, codes, Some, OnOk, OnErr, IfOk, IfErr, string_bytes};
ghost use Rattle.td_text.specs.Output.{Sent, SentTo, SentFront, Failed, one_more};
ghost use Rattle.td_certificate.specs.declared.question.Version.TheVariants as of_version;
ghost use Rattle.td_certificate.specs.Spelling.{fields_of, field_line, default_line, output_line, terms_of, ended, question_text, high_lines, claim_lines, head_lines, text_of, HasSpelling, spelling};
ghost use Rattle.td_certificate.specs.Steps.{or_none, refuted_line};
ghost use Rattle.td_certificate.specs.Trees.{is_refuted};
ghost use Rattle.td_certificate.specs.Sending.{StopsIn};
ghost use Rattle.td_certificate.specs.Text.{row, bits, trit, first_trits, second_trits, hold, numbers, conditions, node_line};

use crate::certificate::{Certificate, Claim};
use crate::condition_words::push_conditions;
use crate::fault::WriteFault;
use crate::question::{Question, Terms, Version};
use crate::refuting::Refuted;
use crate::tree::Node;
use std::alloc::{AllocError, Global};
use td_domain::{Cube, Trit};
use td_refutation::NamedCondition;
use td_text::{DeviceFault, Sink};

/// How many bytes are gathered before they are written.
const BATCH: usize = 65_536;

/// The character of a trit.
fn trit_character(bit: Trit) -> char
    ensures { encode_utf8 result ≡ trit bit ∷ [] }
{
    match bit {
        Trit::Zero => '0',
        Trit::One => '1',
        Trit::Free => '.',
    }
}

/// By how much the position of an input's second bit passes that of its first, and 0 for the first.
fn side(second: bool) -> usize
    ensures { result ≡ (if second then 1 else 0) }
{
    usize::from(second)
}

/// Puts a character for each first bit of the inputs at the end, or for each second bit, or `none`.
#[tactic(auto, using(crate::proofs::Batches::none_pushed))]
pub fn push_trits(text: &mut String, pins: &Cube, second: bool) -> Result<(), AllocError>
    ensures { OnOk result (string_bytes text.new ≡ string_bytes text.old ++ row trit (if second then second_trits pins.now else first_trits pins.now)) }
{
    if pins.len() < 2 {
        return text.push_str("none");
    }
    for input in 0..pins.len() / 2 {
        text.push(trit_character(pins.trit(2 * input + side(second))))?;
    }
    Ok(())
}

/// Puts a character for each input at the end, which tells whether it is held.
pub fn push_holds(text: &mut String, held: &[bool]) -> Result<(), AllocError>
    ensures { OnOk result (string_bytes text.new ≡ string_bytes text.old ++ row hold held.now) }
{
    if held.is_empty() {
        return text.push_str("none");
    }
    for held in held {
        text.push(if *held { '=' } else { '.' })?;
    }
    Ok(())
}

/// Puts the lines from `first` to `flips` at the end.
fn push_admit(text: &mut String, question: &Question) -> Result<(), AllocError>
    ensures { OnOk result (string_bytes text.new ≡ string_bytes text.old ++ text_of (map (field_line question.now) (fields_of of_version.Second))) }
{
    let admit = question.admit();
    text.push_str("first ")?;
    push_trits(text, admit.pins(), false)?;
    text.push_str("\nsecond ")?;
    push_trits(text, admit.pins(), true)?;
    text.push_str("\nhold ")?;
    push_holds(text, admit.held())?;
    let flips = admit.flips();
    writeln!(text, "\nflips {flips}")?;
    Ok(())
}

/// Puts a line of a word and numbers at the end, a space before each, or `none`.
pub fn push_listed(text: &mut String, word: &str, listed: &[u64]) -> Result<(), AllocError>
    ensures { OnOk result (string_bytes text.new ≡ string_bytes text.old ++ ended (word.now ++ (codes " " ++ numbers listed.now))) }
{
    text.push_str(word)?;
    if listed.is_empty() {
        text.push_str(" none\n")?;
        return Ok(());
    }
    for number in listed {
        write!(text, " {number}")?;
    }
    text.push_str("\n")?;
    Ok(())
}

/// Puts the lines from `first` to `at` at the end.
fn push_dated(text: &mut String, question: &Question) -> Result<(), AllocError>
    ensures { OnOk result (string_bytes text.new ≡ string_bytes text.old ++ question_text of_version.Third question.now) }
{
    push_admit(text, question)?;
    push_listed(text, "at", question.moments())
}

/// Puts the lines that tell a question at the end, as they stand in a certificate's text of this
/// version. In the first version there are none.
pub fn push_question(
    text: &mut String,
    version: Version,
    question: &Question,
) -> Result<(), AllocError>
    ensures { OnOk result (string_bytes text.new ≡ string_bytes text.old ++ question_text version question.now) }
{
    match version {
        Version::First => Ok(()),
        Version::Second => push_admit(text, question),
        Version::Third => push_dated(text, question),
        Version::Fourth => {
            push_terms(text, question)?;
            push_dated(text, question)?;
            push_keep(text, question.keep())
        }
    }
}

/// Puts the line `keep` at the end.
pub fn push_keep(text: &mut String, keep: &[NamedCondition]) -> Result<(), AllocError>
    ensures { OnOk result (string_bytes text.new ≡ string_bytes text.old ++ ended (codes "keep " ++ conditions keep.now)) }
{
    text.push_str("keep ")?;
    push_conditions(text, keep)?;
    text.push_str("\n")
}

/// Puts the line `output` at the end.
pub fn push_outputs(text: &mut String, terms: &Terms) -> Result<(), AllocError>
    ensures { OnOk result (string_bytes text.new ≡ string_bytes text.old ++ ended (output_line terms.now)) }
{
    match &terms.outputs {
        None => text.push_str("output all\n"),
        Some(asked) => push_listed(text, "output", asked),
    }
}

/// Puts the line `default` at the end.
pub fn push_default(text: &mut String, terms: &Terms) -> Result<(), AllocError>
    ensures { OnOk result (string_bytes text.new ≡ string_bytes text.old ++ ended (default_line terms.now)) }
{
    let rise = terms.rise;
    let fall = terms.fall;
    writeln!(text, "default {rise} {fall}")
}

/// Puts the lines `default` and `output` at the end.
fn push_told(text: &mut String, terms: &Terms) -> Result<(), AllocError>
    ensures { OnOk result (string_bytes text.new ≡ string_bytes text.old ++ (ended (default_line terms.now) ++ ended (output_line terms.now))) }
{
    push_default(text, terms)?;
    push_outputs(text, terms)
}

/// Puts the lines of a question's terms at the end: those of 1 and 1 and of all outputs where it has
/// none.
fn push_terms(text: &mut String, question: &Question) -> Result<(), AllocError>
    ensures { OnOk result (string_bytes text.new ≡ string_bytes text.old ++ (ended (default_line (terms_of question.now)) ++ ended (output_line (terms_of question.now)))) }
{
    match question.terms() {
        Some(terms) => push_told(text, terms),
        None => {
            text.push_str("default 1 1\noutput all\n")?;
            Ok(())
        }
    }
}

/// Puts a character for each bit at the end, or `none`.
fn push_bits(text: &mut String, vector: &[bool]) -> Result<(), AllocError>
    ensures { OnOk result (string_bytes text.new ≡ string_bytes text.old ++ bits vector.now) }
{
    if vector.is_empty() {
        return text.push_str("none");
    }
    for bit in vector {
        text.push(if *bit { '1' } else { '0' })?;
    }
    Ok(())
}

/// Puts the line of the moment after which no admitted pair changes an output at the end, where a
/// text of this version has it.
fn push_high(text: &mut String, version: Version, high: u64) -> Result<(), AllocError>
    ensures { OnOk result (string_bytes text.new ≡ string_bytes text.old ++ text_of (high_lines version high)) }
{
    match version {
        Version::First | Version::Second | Version::Third => Ok(()),
        Version::Fourth => writeln!(text, "high {high}"),
    }
}

/// Puts the lines of a claim at the end, as a text of this version has them.
fn push_claim(text: &mut String, version: Version, claim: &Claim) -> Result<(), AllocError>
    ensures { OnOk result (string_bytes text.new ≡ string_bytes text.old ++ text_of (claim_lines version (Some claim.now))) }
{
    let time = claim.time;
    writeln!(text, "time {time}")?;
    push_high(text, version, claim.high)?;
    text.push_str("from ")?;
    push_bits(text, claim.pair.first())?;
    text.push_str("\nto ")?;
    push_bits(text, claim.pair.second())?;
    text.push_str("\n")?;
    Ok(())
}

/// Puts the lines of what a certificate claims at the end, as a text of this version has them.
fn push_claimed(
    text: &mut String,
    version: Version,
    claim: &Option<Claim>,
) -> Result<(), AllocError>
    ensures { OnOk result (string_bytes text.new ≡ string_bytes text.old ++ text_of (claim_lines version claim.now)) }
{
    match claim {
        None => text.push_str("time none\n"),
        Some(claim) => push_claim(text, version, claim),
    }
}

/// The lines before the tree.
fn head(alloc: Global, certificate: &Certificate) -> Result<String, AllocError>
    ensures { IfOk result (λ text. string_bytes text ≡ text_of (head_lines certificate.now)) }
{
    let version = certificate.version();
    let number = version.number();
    let inputs = certificate.question.inputs();
    let gates = certificate.gates;
    let mut text = format!(in alloc; "tdelay-cert {number}\ncircuit {inputs} {gates}\n")?;
    push_question(&mut text, version, &certificate.question)?;
    push_claimed(&mut text, version, &certificate.claim)?;
    Ok(text)
}

/// Puts the line of a node that isn't a refuted leaf at the end.
fn push_line(text: &mut String, node: &Node) -> Result<(), AllocError>
    requires { is_refuted node.now ≡ false }
    ensures { OnOk result (string_bytes text.new ≡ string_bytes text.old ++ ended (node_line node.now)) }
{
    match node {
        Node::Split(position) => writeln!(text, "s {position}"),
        Node::Bound(domain, bound) => writeln!(text, "b {domain} {bound}"),
        Node::Point(time) => writeln!(text, "p {time}"),
        Node::Empty => writeln!(text, "none"),
        Node::Refuted(_) => Ok(()),
    }
}

/// Writes the batch if it is full.
fn make_room<W: Sink>(out: &mut W, batch: &mut String) -> Result<(), DeviceFault>
    ensures ok { OnOk result (SentTo (W.output out.old) (W.output out.new) (string_bytes batch.old) (string_bytes batch.new)) }
    ensures err { OnErr result (Failed (W.output out.old) (W.output out.new) (string_bytes batch.old)) }
{
    if batch.len() >= BATCH {
        out.write_all(batch.as_bytes())?;
        batch.clear();
    }
    Ok(())
}

/// Puts the line of a bound that steps are to show at the end, or `none`.
fn push_bound(text: &mut String, bound: Option<u64>) -> Result<(), AllocError>
    ensures { OnOk result (string_bytes text.new ≡ string_bytes text.old ++ ended (codes "q " ++ or_none bound)) }
{
    match bound {
        None => text.push_str("q none\n"),
        Some(bound) => writeln!(text, "q {bound}"),
    }
}

/// Writes the batch and the lines of a leaf that is refuted, but for that of its bound, which is
/// left in the batch.
fn write_refuted<W: Sink>(
    out: &mut W,
    batch: &mut String,
    refuted: &Refuted,
) -> Result<(), WriteFault>
    ensures ok { OnOk result (SentTo (W.output out.old) (W.output out.new) (string_bytes batch.old ++ ended (refuted_line refuted.now)) (string_bytes batch.new)) }
    ensures err { IfErr result (λ fault. StopsIn fault (W.output out.old) (W.output out.new) (string_bytes batch.old ++ ended (refuted_line refuted.now))) }
{
    batch.push_str("x\n")?;
    out.write_all(batch.as_bytes())?;
    batch.clear();
    out.write_all(refuted.lines())?;
    push_bound(batch, refuted.bound())?;
    Ok(())
}

/// Puts a node's line at the end of the batch. Of the lines of a leaf that is refuted all but the
/// last are written.
fn write_node<W: Sink>(out: &mut W, batch: &mut String, node: &Node) -> Result<(), WriteFault>
    ensures ok { OnOk result (SentTo (W.output out.old) (W.output out.new) (string_bytes batch.old ++ ended (node_line node.now)) (string_bytes batch.new)) }
    ensures err { IfErr result (λ fault. StopsIn fault (W.output out.old) (W.output out.new) (string_bytes batch.old ++ ended (node_line node.now))) }
{
    match node {
        Node::Refuted(refuted) => write_refuted(out, batch, refuted),
        Node::Split(_) | Node::Bound(_, _) | Node::Point(_) | Node::Empty => {
            push_line(batch, node)?;
            Ok(())
        }
    }
}

/// Appends the certificate's text to what went out.
///
/// The error is that memory ran out for the bytes that are gathered before a write, or a failure of
/// the writer.
pub fn write<W: Sink>(
    alloc: Global,
    out: &mut W,
    certificate: &Certificate,
) -> Result<(), WriteFault>
    requires { HasSpelling certificate.now }
    ensures written { OnOk result (Sent (W.output out.old) (W.output out.new) (spelling certificate.now)) }
    // What went out is a beginning of the text.
    ensures front { OnErr result (SentFront (W.output out.old) (W.output out.new) (spelling certificate.now)) }
    // The writer failed once in this call.
    ensures device { IfErr result (λ fault. fault ≡ WriteFault.Device → (W.output out.new).failures ≡ one_more (W.output out.old).failures) }
    // Where memory ran out, it did not.
    ensures memory { IfErr result (λ fault. fault ≡ WriteFault.OutOfMemory → (W.output out.new).failures ≡ (W.output out.old).failures) }
{
    let mut batch = head(alloc, certificate)?;
    for node in certificate.tree.nodes() {
        make_room(out, &mut batch)?;
        write_node(out, &mut batch, node)?;
    }
    out.write_all(batch.as_bytes())?;
    Ok(())
}
