// Document 01's a, b and kind, by lengths alone.
ghost use Rattle.std.specs.Prelude.{◌≡◌, min};
ghost use Rattle.normal_form.specs.Form.{within, kind_in, outline_in};

use super::{Kind, Outline};

fn within_room(k: usize, q: usize, p: usize) -> usize
    ensures { result ≡ within k q p }
{
    p.min(k.saturating_sub(q))
}

fn kind_of(k: usize, p: usize, q: usize) -> Kind
    ensures { result ≡ kind_in k p q }
{
    if q < k.saturating_sub(p) {
        return Kind::Substitution;
    }
    Kind::Indel
}

// Of two sequences of n and m residues whose longest common prefix has p, and suffix q.
pub fn outline_of(n: usize, m: usize, p: usize, q: usize) -> Outline
    ensures { result ≡ outline_in (min n m) p q }
{
    let k = n.min(m);
    Outline {
        kind: kind_of(k, p, q),
        a: within_room(k, q, p),
        b: within_room(k, p, q),
    }
}
