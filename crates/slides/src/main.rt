// Prints the worked cases of sliders, 01's and A2's, and cases at the edges, one to a line, each in both uses.
#![tactic(auto)]

use dialogue::Writer;
use slider::{Kind, Refusal, Travel, Use};

// A whole number of 32 bits at its longest: a sign and ten digits.
const WHOLE: usize = 11;

// Writes a whole number in decimal, with its sign.
fn write_whole(z: i32) {
    let mut room = [0u8; WHOLE];
    let mut text = Writer::new(&mut room);
    text.put_signed(z);
    io::write_all(1, text.text());
}

// Writes an answer: the bound, or the refusal number.
fn write_answer(answer: Result<i32, Refusal>) {
    match answer {
        Ok(z) => write_whole(z),
        Err(refusal) => {
            io::write_all(1, b"refused ");
            io::print_decimal(1, refusal as u64);
        }
    }
}

// Writes what was asked and what was answered to each use.
fn show(asked: &[u8], kind: Kind, position: f32) {
    io::write_all(1, asked);
    io::write_all(1, b": at most ");
    write_answer(slider::slide(kind, position, Use::AtMost));
    io::write_all(1, b", at least ");
    write_answer(slider::slide(kind, position, Use::AtLeast));
    io::write_all(1, b"\n");
}

// Shows a Span.
fn show_span(asked: &[u8], low: f32, high: f32, position: f32) {
    show(asked, Kind::Span(Travel { low, high }), position);
}

// Shows a Rate.
fn show_rate(asked: &[u8], work: f32, position: f32) {
    show(asked, Kind::Rate { work }, position);
}

// Shows a Fixed, at position 0.
fn show_fixed(asked: &[u8], value: f32) {
    show(asked, Kind::Fixed(value), 0.0);
}

// The cases of 01, and of A2 the one that is not among them.
fn worked() {
    show_span(b"Span 10..20 at 0.25", 10.0, 20.0, 0.25);
    show_span(b"Span -10..-5 at 0.5", -10.0, -5.0, 0.5);
    show_rate(b"Rate 30 at 0.5", 30.0, 0.5);
    show_rate(b"Rate 7 at 0.75", 7.0, 0.75);
    show_rate(b"Rate 7 at 0", 7.0, 0.0);
    show_rate(b"Rate 390 at 1/256", 390.0, 0.00390625);
    show_rate(b"Rate 391 at 1/256", 391.0, 0.00390625);
    show_fixed(b"Fixed -2.5", -2.5);
    show_fixed(b"Fixed 12.5", 12.5);
}

// Spans at the edges.
fn spans() {
    show_span(b"Span 4096..-4096 at 0", 4096.0, -4096.0, 0.0);
    show_span(b"Span 4096..-4096 at 1", 4096.0, -4096.0, 1.0);
    show_span(b"Span 4096..-4096 at 255/256", 4096.0, -4096.0, 0.99609375);
    show_span(b"Span -4096..4095 at 255/256", -4096.0, 4095.0, 0.99609375);
    show_span(b"Span -0.0..20 at -0.0", -0.0, 20.0, -0.0);
    show_span(b"Span 4097..20 at 0.25", 4097.0, 20.0, 0.25);
    show_span(b"Span 10..-4097 at 0.25", 10.0, -4097.0, 0.25);
    show_span(b"Span 10.5..20 at 0.25", 10.5, 20.0, 0.25);
    show_span(b"Span 10..20 at 1/512", 10.0, 20.0, 0.001953125);
    show_span(b"Span 10..20 at 257/256", 10.0, 20.0, 1.00390625);
    show_span(b"Span 10..20 at -1/256", 10.0, 20.0, -0.00390625);
}

// Rates at the edges.
fn rates() {
    show_rate(b"Rate 4096 at 1", 4096.0, 1.0);
    show_rate(b"Rate 4096 at 11/256", 4096.0, 0.04296875);
    show_rate(b"Rate 4096 at 10/256", 4096.0, 0.0390625);
    show_rate(b"Rate -0.0 at 0.5", -0.0, 0.5);
    show_rate(b"Rate 7 at -0.0", 7.0, -0.0);
    show_rate(b"Rate 0 at 0", 0.0, 0.0);
    show_rate(b"Rate 0.5 at 0", 0.5, 0.0);
    show_rate(b"Rate -1 at 0.5", -1.0, 0.5);
    show_rate(b"Rate 4097 at 0.5", 4097.0, 0.5);
}

// Fixed values at the edges.
fn fixed() {
    show_fixed(b"Fixed -0.0", -0.0);
    show_fixed(b"Fixed -0.5", -0.5);
    show_fixed(b"Fixed 2.5", 2.5);
    show_fixed(b"Fixed -2", -2.0);
    show_fixed(b"Fixed 100000", 100000.0);
    show_fixed(b"Fixed 100000.5", 100000.5);
    show_fixed(b"Fixed 100001", 100001.0);
    show_fixed(b"Fixed -100000", -100000.0);
    show_fixed(b"Fixed -100000.5", -100000.5);
    show_fixed(b"Fixed 2^127", 1.7014118e38);
    show_fixed(b"Fixed 2^-149", 1.4e-45);
    show_fixed(b"Fixed -2^-149", -1.4e-45);
}

// Numbers that are not finite, or too small, where each number is read.
fn strange() {
    let infinity: f32 = 1.0 / 0.0;
    let nan: f32 = 0.0 / 0.0;
    let tiny: f32 = 1.4e-45;
    show_span(b"Span nan..20 at 0.25", nan, 20.0, 0.25);
    show_span(b"Span 10..infinity at 0.25", 10.0, infinity, 0.25);
    show_span(b"Span 10..20 at nan", 10.0, 20.0, nan);
    show_span(b"Span 10..20 at 2^-149", 10.0, 20.0, tiny);
    show_rate(b"Rate 2^-149 at 0.5", tiny, 0.5);
    show_rate(b"Rate nan at 0", nan, 0.0);
    show_rate(b"Rate 7 at infinity", 7.0, infinity);
    show_fixed(b"Fixed nan", nan);
    show_fixed(b"Fixed infinity", infinity);
    show_fixed(b"Fixed -infinity", -infinity);
    show(b"Fixed 5 at nan", Kind::Fixed(5.0), nan);
}

fn main() {
    worked();
    spans();
    rates();
    fixed();
    strange();
}
