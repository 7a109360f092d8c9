// Entries of a log, as bytes: four each, most significant first.
ghost use Rattle.std.specs.Prelude.{◌≡◌, ℕ, ◌≤◌, List, ◌∷◌, ◌++◌, length, drop};
ghost use Rattle.rules.specs.Entry.{entry_bytes, byte_entry};

// Writes an entry at the front of a log's free tail.
pub fn put_entry(tail: &mut [u8], entry: u32)
    requires { 4 ≤ length tail.old }
    ensures { tail.new ≡ entry_bytes entry ++ drop 4 tail.old }
{
    tail[..4].copy_from_slice(&entry.to_be_bytes());
}

// The entry at the front of a log.
pub fn first_entry(log: &[u8]) -> u32
    requires { 4 ≤ length log.now }
    ensures { (a b c d : ℕ) (rest : List ℕ) → log.now ≡ (a ∷ b ∷ c ∷ d ∷ rest) → result ≡ byte_entry a b c d }
{
    u32::from_be_bytes([log[0], log[1], log[2], log[3]])
}
