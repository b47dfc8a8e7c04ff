// Numbers and lists of numbers, written in digits into a lent buffer.
#![tactic(auto)]

ghost use Rattle.std.specs.Prelude.{◌≡◌, [], ◌∷◌, ◌++◌, List, map, take, ℕ, ◌+◌, ◌%◌, ◌<◌, ◌≤◌, length, All};
ghost use Rattle.rules.specs.Terms.{leaves, enters, ring};
ghost use Rattle.rules.specs.Listing.{decimal, fields};
ghost use Rattle.land.specs.Walks.{land_from, Below, Darts};
ghost use Rattle.print.specs.Puts.{Room, Wrote, Gave, Led};

use darts::reverse;

// A lent buffer that is written from its front: the bytes, and how many are written.
#[derive(Drop)]
pub struct Out<'a> {
    pub bytes: &'a mut [u8],
    pub at: usize,
}

// `Room l out` is of what is to be written and of what is left at once: a fact of no one value, which stays a clause.
// The digits are written here, since `write!` promises nothing of the bytes that it leaves in a lent slice.

// The last digit of n.
fn digit(n: usize) -> u8
    ensures { result ≡ 48 + n % 10 }
{
    b'0' + (n % 10) as u8
}

impl Out<'_> {
    // Writes one byte.
    pub fn byte(&mut self, x: u8)
        requires { Room (x ∷ []) self.old }
        ensures { Wrote (x ∷ []) self.old self.new }
    {
        self.bytes[self.at] = x;
        self.at += 1;
    }

    // Writes the bytes of a word.
    pub fn text(&mut self, word: &[u8])
        requires { Room word.now self.old }
        ensures { Wrote word.now self.old self.new }
    {
        let end = self.at + word.len();
        self.bytes[self.at..end].copy_from_slice(word);
        self.at = end;
    }

    // Writes the digits of n.
    fn decimal(&mut self, n: usize)
        requires { Room (decimal n) self.old }
        ensures { Wrote (decimal n) self.old self.new }
    {
        if n >= 10 {
            self.decimal(n / 10);
        }
        self.byte(digit(n));
    }

    // Writes a blank and the digits of n.
    pub fn field(&mut self, n: usize)
        requires { Room (fields (n ∷ [])) self.old }
        ensures { Wrote (fields (n ∷ [])) self.old self.new }
    {
        self.byte(b' ');
        self.decimal(n);
    }

    // Writes a field for each dart: the port that `port` gives for it.
    fn each<F: Fn(usize) -> usize>(&mut self, darts: &[u16], port: F)
        requires callable { All (λ d. F.pre port d) darts.now }
        requires room { (i : ℕ) (ns : List ℕ) → Gave (F.post port) (take i darts.now) ns → Room (fields ns) self.old }
        ensures { (ns : List ℕ) × Gave (F.post port) darts.now ns × Wrote (fields ns) self.old self.new }
    {
        for d in darts {
            self.field(port(*d as usize));
        }
    }

    // Writes a field for each dart: the port that it leaves.
    pub fn ports_left(&mut self, ends: &[u16], darts: &[u16])
        requires darts { Darts ends.now darts.now }
        requires room { Room (fields (map (leaves ends.now) darts.now)) self.old }
        ensures { Wrote (fields (map (leaves ends.now) darts.now)) self.old self.new }
    {
        self.each(darts, |d| ends[d] as usize);
    }

    // Writes a field for each dart: the port that it enters.
    pub fn ports_entered(&mut self, ends: &[u16], darts: &[u16])
        requires darts { Darts ends.now darts.now }
        requires room { Room (fields (map (enters ends.now) darts.now)) self.old }
        ensures { Wrote (fields (map (enters ends.now) darts.now)) self.old self.new }
    {
        self.each(darts, |d| ends[reverse(d)] as usize);
    }

    // Writes a field for each of n darts from d on, `next` leading from each to the one after it.
    fn walk<F: Fn(usize) -> usize>(&mut self, n: usize, d: usize, next: F)
        requires callable { (ds : List ℕ) (e : ℕ) → Led (F.post next) d ds e → length ds < n → F.pre next e }
        requires room { (ds : List ℕ) (e : ℕ) → Led (F.post next) d ds e → length ds < n → Room (fields (ds ++ e ∷ [])) self.old }
        ensures { (ds : List ℕ) × (e : ℕ) × Led (F.post next) d ds e × (length ds ≡ n) × Wrote (fields ds) self.old self.new }
    {
        let mut dart = d;
        for _ in 0..n {
            self.field(dart);
            dart = next(dart);
        }
    }

    // Writes a field for each of the n darts of a land from d on.
    pub fn land(&mut self, turns: &[u16], d: usize, n: usize)
        requires darts { Darts turns.now (land_from turns.now n d) }
        requires room { Room (fields (land_from turns.now n d)) self.old }
        ensures { Wrote (fields (land_from turns.now n d)) self.old self.new }
    {
        self.walk(n, d, |dart| land::after(turns, dart));
    }

    // Writes a field for each of n darts clockwise from d on.
    pub fn ring(&mut self, turns: &[u16], n: usize, d: usize)
        requires below { Below (length turns.now) (ring turns.now n d) }
        requires room { Room (fields (ring turns.now n d)) self.old }
        ensures { Wrote (fields (ring turns.now n d)) self.old self.new }
    {
        self.walk(n, d, |dart| turns[dart] as usize);
    }
}
