// What the fields of an N line say: `N,kind,label,callee`. Every function takes any bytes.
#![tactic(auto)]

ghost use Rattle.std.specs.Prelude.{◌≡◌, ◌≤◌, MatchOption};
ghost use Rattle.std.proofs.Math.Option.{none, some};
ghost use Rattle.rules.specs.Text.{is_callees, names_in};
ghost use Rattle.rules.specs.ProgramFile.{is_node, kind_of as kind_in};
ghost use Rattle.lines.specs.Callees.{names_up_to};
ghost use Rattle.lines.specs.Kinds.{Decodes, kind_code, kind_meant, node_kind};

// The kinds of node: E, S, C, X in a program file.
#[derive(Clone, Copy, Debug, PartialEq, Eq)]
pub enum Kind {
    Entry,
    Step,
    Call,
    Exit,
}

// A number that no kind has.
#[derive(Clone, Copy, Debug, PartialEq, Eq)]
pub struct NoKind(pub usize);

impl Kind {
    // Its number, as tables hold it.
    pub fn number(self) -> usize
        ensures value { result ≡ kind_code self }
        ensures small { result ≤ 3 }
    {
        match self {
            Kind::Entry => 0,
            Kind::Step => 1,
            Kind::Call => 2,
            Kind::Exit => 3,
        }
    }
}

impl TryFrom<usize> for Kind {
    type Error = NoKind;

    ghost try_from_gives = { Decodes };

    fn try_from(number: usize) -> Result<Self, NoKind> {
        match number {
            0 => Ok(Kind::Entry),
            1 => Ok(Kind::Step),
            2 => Ok(Kind::Call),
            3 => Ok(Kind::Exit),
            _ => Err(NoKind(number)),
        }
    }
}

// Whether the bytes are 1 to `most` names joined by `+`. One name, which nearly every callee field is, is told at once.
#[tactic(auto, using(crate::proofs::Laws::callees))]
fn names_up_to(field: &[u8], most: usize) -> bool
    ensures { result ≡ names_up_to most (names_in field.now) }
{
    if most == 0 {
        return false;
    }
    if text::is_name(field) {
        return true;
    }
    let name = text::first_short(field, b'+');
    if field.len() <= name.len() || !text::is_name(name) {
        return false;
    }
    names_up_to(text::after(field, name.len() + 1), most - 1)
}

// Whether the bytes are a callee field.
#[tactic(auto, using(crate::proofs::Laws::callees))]
fn is_callees(field: &[u8]) -> bool
    ensures { result ≡ is_callees field.now }
{
    names_up_to(field, 4)
}

// Whether label and callee suit the kind: an E and an X leave both empty, an S leaves the callee empty, a C fills both.
#[tactic(auto, using(crate::proofs::Laws::suits))]
fn suits(kind: Kind, label: &[u8], callee: &[u8]) -> bool
    ensures { result ≡ is_node (kind_meant kind) label.now callee.now }
{
    match kind {
        Kind::Entry | Kind::Exit => label.is_empty() && callee.is_empty(),
        Kind::Step => text::is_label(label) && callee.is_empty(),
        Kind::Call => text::is_label(label) && is_callees(callee),
    }
}

// The kind that a field names.
#[tactic(auto, using(crate::proofs::Laws::names))]
fn named(field: &[u8]) -> Option<Kind>
    ensures { MatchOption result (kind_in field.now ≡ none) (λ k. kind_in field.now ≡ some (kind_meant k)) }
{
    if text::same(field, b"E") {
        Some(Kind::Entry)
    } else if text::same(field, b"S") {
        Some(Kind::Step)
    } else if text::same(field, b"C") {
        Some(Kind::Call)
    } else if text::same(field, b"X") {
        Some(Kind::Exit)
    } else {
        None
    }
}

// The kind that the field `kind` names, where label and callee suit it.
#[tactic(auto, using(crate::proofs::Laws::kinds))]
pub fn kind_of(kind: &[u8], label: &[u8], callee: &[u8]) -> Option<Kind>
    ensures { result ≡ node_kind kind.now label.now callee.now }
{
    let kind = named(kind)?;
    if suits(kind, label, callee) {
        Some(kind)
    } else {
        None
    }
}
