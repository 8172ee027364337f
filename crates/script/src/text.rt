// The parts of a problem's text, each written where the writer is.
ghost use Rattle.std.specs.Prelude.{map, ◌/◌, T, nat_abs, length};
ghost use Rattle.meaning.specs.Screen.{alternatives, clauses_of, stepped};
ghost use Rattle.problem.specs.Reads.{given};
ghost use Rattle.dialogue.specs.Written.{led};
ghost use Rattle.dialogue.specs.Puts.{Puts};
ghost use Rattle.script.specs.Text.{name_of, declaration_of, declarations_from, bound_of, atom_of, atom_text, held_of, assert_of, asserts_of, text_of};

use dialogue::Writer;

// The name of an event.
fn put_name(out: &mut Writer, e: u64)
    ensures { Puts out.old out.new (name_of e) }
{
    out.put(b"e");
    out.put_number(e)
}

// The declaration of an event.
fn put_declaration(out: &mut Writer, e: u64)
    ensures { Puts out.old out.new (declaration_of e) }
{
    out.put(b"(declare-fun ");
    put_name(out, e);
    out.put(b" () Int)\n")
}

// The declarations of n events.
fn put_declarations(out: &mut Writer, n: u32)
    ensures { Puts out.old out.new (declarations_from 0 n) }
{
    for e in 0..n {
        put_declaration(out, u64::from(e));
    }
}

// A bound.
fn put_bound(out: &mut Writer, c: i32)
    ensures { Puts out.old out.new (bound_of c) }
{
    let value = u64::from(c.unsigned_abs());
    if c < 0 {
        out.put(b"(- ");
        out.put_number(value);
        out.put(b")")
    } else {
        out.put_number(value)
    }
}

// The atom of an alternative.
fn put_atom(out: &mut Writer, x: i32, y: i32, c: i32)
    ensures { Puts out.old out.new (atom_of (nat_abs x) (nat_abs y) c) }
{
    out.put(b"(<= (- ");
    put_name(out, u64::from(x.unsigned_abs()));
    out.put(b" ");
    put_name(out, u64::from(y.unsigned_abs()));
    out.put(b") ");
    put_bound(out, c);
    out.put(b")")
}

// The atoms of the alternatives of triples, each led by a space.
fn put_atoms(out: &mut Writer, triples: &[i32])
    ensures { Puts out.old out.new (led (map atom_text (alternatives 0 triples.now))) }
{
    for triple in triples.chunks_exact(3) {
        out.put(b" ");
        put_atom(out, triple[0], triple[1], triple[2]);
    }
}

// What an assert holds: the alternatives of triples.
fn put_held(out: &mut Writer, triples: &[i32])
    ensures { Puts out.old out.new (held_of (map atom_text (alternatives 0 triples.now))) }
{
    match triples.len() / 3 {
        0 => out.put(b"false"),
        1 => put_atom(out, triples[0], triples[1], triples[2]),
        _ => {
            out.put(b"(or");
            put_atoms(out, triples);
            out.put(b")")
        }
    }
}

// The assert of a clause: the alternatives of triples.
fn put_assert(out: &mut Writer, triples: &[i32])
    ensures { Puts out.old out.new (assert_of (alternatives 0 triples.now)) }
{
    out.put(b"(assert ");
    put_held(out, triples);
    out.put(b")\n")
}

// The asserts of the clauses.
fn put_asserts(out: &mut Writer, triples: &[i32], counts: &[u32])
    requires { T (stepped (length triples.now / 3) 0 counts.now) }
    ensures { Puts out.old out.new (asserts_of (clauses_of (given 0 triples.now counts.now))) }
{
    let mut from = 0;
    for &count in counts {
        let end = count as usize;
        put_assert(out, &triples[from * 3..end * 3]);
        from = end;
    }
}

// The whole text.
pub fn put_text(out: &mut Writer, n: u32, triples: &[i32], counts: &[u32])
    requires { T (stepped (length triples.now / 3) 0 counts.now) }
    ensures { Puts out.old out.new (text_of (given n triples.now counts.now)) }
{
    out.put(b"(set-logic QF_IDL)\n");
    put_declarations(out, n);
    put_asserts(out, triples, counts);
    out.put(b"(check-sat)\n")
}
