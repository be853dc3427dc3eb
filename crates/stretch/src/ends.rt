// The two ends of a stretch, from each of which its bytes are counted.
ghost use Rattle.std.specs.Prelude.{◌≡◌, ℕ, ◌+◌, ◌*◌, ◌<◌, ◌≤◌, List, length, take, drop, map, reverse, slice_index};

pub trait End {
    // The bytes in the order in which they are counted.
    ghost order: { List ℕ → List ℕ };

    fn byte(s: &[u8], i: usize) -> u8
        requires { i < length s.now }
        ensures { result ≡ slice_index (order s.now) i };

    // Eight bytes, after i times as many.
    fn word(s: &[u8], i: usize) -> &[u8; 8]
        requires { i * 8 + 8 ≤ length s.now }
        ensures { order result.now ≡ take 8 (drop (i * 8) (order s.now)) };

    ghost long: { (s : List ℕ) → length (order s) ≡ length s };

    ghost maps: { (f : ℕ → ℕ) (s : List ℕ) → order (map f s) ≡ map f (order s) };
}

pub struct Front;

impl End for Front {
    ghost use mathlib.Core.Path.{refl};

    ghost order = { λ s. s };

    ghost long = { λ s. refl };

    ghost maps = { λ f s. refl };

    fn byte(s: &[u8], i: usize) -> u8 {
        s[i]
    }

    fn word(s: &[u8], i: usize) -> &[u8; 8] {
        let (words, _) = s.as_chunks::<8>();
        &words[i]
    }
}

pub struct Back;

impl End for Back {
    ghost use lib.ListN.{length-reverse};
    ghost use Rattle.stretch.specs.Reverse.{reverse-map};

    ghost order = { reverse };

    ghost long = { length-reverse };

    ghost maps = { reverse-map };

    fn byte(s: &[u8], i: usize) -> u8 {
        s[s.len() - 1 - i]
    }

    fn word(s: &[u8], i: usize) -> &[u8; 8] {
        let (_, words) = s.as_rchunks::<8>();
        &words[words.len() - 1 - i]
    }
}
