//! The lines that leafnet prints, put behind a text that has room for them. Internal, but for what `Refused` prints.
ghost use Rattle.std.specs.Prelude.{◌≡◌, ◌+◌, ◌≤◌, ◌++◌};
ghost use Rattle.std.specs.Float.{binary64};
ghost use Rattle.std.specs.Float.Ieee.{to_bits};
ghost use Rattle.arrayvec.specs.ArrayString.{array_string_len};
ghost use Rattle.leafnet_text.specs.Lines.{corners_text, edge_line, ended, last_hex, node_line, refusal_line};

use crate::rooms::{EDGE_LINE, LEAF_LINE, NODE_LINE, REFUSED_LINE, TEXT, TOTALS_LINE};
use arrayvec::ArrayString;
use cell::rectangles::Rect;
use itoa::{Buffer, Integer};
use net_rows::{Edge, Node};
use refusals::{Code, Refusal};
use std::fmt;

/// All that leafnet prints, in a row with room for the longest.
pub type Text = ArrayString<TEXT>;

// A number in decimal.
fn put_number<I: Integer>(text: &mut Text, number: I)
    requires { array_string_len text.old + I.MAX_STR_LEN ≤ TEXT }
    ensures bytes { text.new.bytes ≡ text.old.bytes ++ I.text number }
    ensures short { array_string_len text.new ≤ array_string_len text.old + I.MAX_STR_LEN }
{
    text.push_str(Buffer::new().format(number));
}

// A number's last digits in base 16.
fn put_hex(text: &mut Text, number: u64, digits: usize)
    requires { array_string_len text.old + digits ≤ TEXT }
    ensures bytes { text.new.bytes ≡ text.old.bytes ++ last_hex digits number }
    ensures len { array_string_len text.new ≡ array_string_len text.old + digits }
{
    if digits == 0 {
        return;
    }
    put_hex(text, number / 16, digits - 1);
    let digit = (number % 16) as u8;
    let code = if digit < 10 {
        b'0' + digit
    } else {
        b'a' - 10 + digit
    };
    text.push(char::from(code));
}

// x0 y0 x1 y1
fn put_corners(text: &mut Text, rect: &Rect)
    requires { array_string_len text.old + 83 ≤ TEXT }
    ensures bytes { text.new.bytes ≡ text.old.bytes ++ corners_text rect.now }
    ensures short { array_string_len text.new ≤ array_string_len text.old + 83 }
{
    put_number(text, rect.x0);
    text.push_str(" ");
    put_number(text, rect.y0);
    text.push_str(" ");
    put_number(text, rect.x1);
    text.push_str(" ");
    put_number(text, rect.y1);
}

/// How many there are of everything, and how many splits balance made.
#[derive(Clone, Copy, Debug, PartialEq, Eq)]
pub struct Totals {
    pub cells: usize,
    pub leaves: usize,
    pub nodes: usize,
    pub edges: usize,
    pub splits: usize,
}

impl Totals {
    ghost use Rattle.leafnet_text.specs.Lines.{totals_line};

    pub fn put(&self, text: &mut Text)
        requires { array_string_len text.old + TOTALS_LINE ≤ TEXT }
        ensures bytes { text.new.bytes ≡ text.old.bytes ++ ended (totals_line self.now) }
        ensures short { array_string_len text.new ≤ array_string_len text.old + TOTALS_LINE }
    {
        text.push_str("cells ");
        put_number(text, self.cells);
        text.push_str(" leaves ");
        put_number(text, self.leaves);
        text.push_str(" nodes ");
        put_number(text, self.nodes);
        text.push_str(" edges ");
        put_number(text, self.edges);
        text.push_str(" splits ");
        put_number(text, self.splits);
        text.push_str("\n");
    }
}

/// A leaf of the mesh, in ticks.
#[derive(Clone, Copy, Debug, PartialEq, Eq)]
pub struct Leaf {
    pub id: usize,
    pub polygon: u64,
    pub level: u64,
    pub rect: Rect,
}

impl Leaf {
    ghost use Rattle.leafnet_text.specs.Lines.{leaf_line};

    pub fn put(&self, text: &mut Text)
        requires { array_string_len text.old + LEAF_LINE ≤ TEXT }
        ensures bytes { text.new.bytes ≡ text.old.bytes ++ ended (leaf_line self.now) }
        ensures short { array_string_len text.new ≤ array_string_len text.old + LEAF_LINE }
    {
        text.push_str("leaf ");
        put_number(text, self.id);
        text.push_str(" ");
        put_number(text, self.polygon);
        text.push_str(" ");
        put_number(text, self.level);
        text.push_str(" ");
        put_corners(text, &self.rect);
        text.push_str("\n");
    }
}

/// A node of the net, with its number.
pub fn put_node(text: &mut Text, number: usize, node: &Node)
    requires { array_string_len text.old + NODE_LINE ≤ TEXT }
    ensures bytes { text.new.bytes ≡ text.old.bytes ++ ended (node_line number node.now) }
    ensures short { array_string_len text.new ≤ array_string_len text.old + NODE_LINE }
{
    text.push_str("node ");
    put_number(text, number);
    text.push_str(" ");
    put_number(text, node.layer);
    text.push_str(" ");
    put_number(text, node.component);
    text.push_str(" ");
    put_number(text, node.x);
    text.push_str(" ");
    put_number(text, node.y);
    text.push_str("\n");
}

// The bits of a NaN: sign clear, the highest digit of the fraction set.
const NAN: u64 = 0x7ff8_0000_0000_0000;

// A float's bits. No net has a NaN; with an answer for it no caller owes a proof of that.
#[tactic(auto, using(crate::proofs::Bits::nan_bits))]
fn bits(float: f64) -> u64
    ensures { result ≡ to_bits binary64 float }
{
    if float.is_nan() { NAN } else { float.to_bits() }
}

/// An edge of the net, with its conductance.
pub fn put_edge(text: &mut Text, edge: &Edge)
    requires { array_string_len text.old + EDGE_LINE ≤ TEXT }
    ensures bytes { text.new.bytes ≡ text.old.bytes ++ ended (edge_line edge.now) }
    ensures short { array_string_len text.new ≤ array_string_len text.old + EDGE_LINE }
{
    text.push_str("edge ");
    put_number(text, edge.from);
    text.push_str(" ");
    put_number(text, edge.to);
    text.push_str(" ");
    put_hex(text, bits(edge.conductance), 16);
    text.push_str("\n");
}

/// A refusal, by its number and place.
#[derive(Clone, Copy, Debug, PartialEq, Eq)]
pub struct Refused(pub Refusal);

impl Refused {
    ghost use Rattle.refusals.specs.Said.{refusal};

    pub fn put(&self, text: &mut Text)
        requires { array_string_len text.old + REFUSED_LINE ≤ TEXT }
        ensures { text.new.bytes ≡ text.old.bytes ++ ended (refusal_line (refusal self.now.0)) }
    {
        let Code { number, place } = self.0.code();
        text.push_str("refused ");
        put_number(text, number);
        text.push_str(" ");
        put_number(text, place);
        text.push_str("\n");
    }
}

impl fmt::Display for Refused {
    ghost use Rattle.std.specs.Prelude.{Some};
    ghost use Rattle.refusals.specs.Said.{refusal};

    ghost output = { λ r. Some (refusal_line (refusal r.0)) };

    fn fmt<W: fmt::Write>(&self, f: &mut fmt::Formatter<W>) -> fmt::Result {
        let Code { number, place } = self.0.code();
        write!(f, "refused {number} {place}")
    }
}
