//! Marks by which most commits are known not to have come before.

ghost use Rattle.std.specs.Prelude.{◌≡◌, ◌<◌, ◌/◌, true, length};
ghost use Rattle.farm_types.specs.declared.commit_id.CommitId.{CommitId};
ghost use Rattle.suspect_range.specs.Marks.{is_marked, mark_of};
ghost use Rattle.suspect_range.specs.declared.marks.TheConstants.{MARKS};

use farm_types::CommitId;

/// How many marks there are, so many that few of the most suspects of a search share one.
pub(crate) const MARKS: u16 = 16_384;

/// How many words of 64 bits have a bit for each mark.
const WORDS: usize = MARKS as usize / 64;

/// A mark of each commit that was put, as a bit. Commits may share one, so that a commit with a mark may have been put,
/// and one without hasn't.
#[derive(Drop)]
pub(crate) struct Marks {
    words: [u64; WORDS],
    ghost whole: { length words ≡ MARKS / 64 },
}

impl Marks {
    /// No marks.
    pub(crate) fn new() -> Marks {
        Marks { words: [0; WORDS] }
    }

    /// Whether a commit has its mark.
    pub(crate) fn has(&self, commit: CommitId) -> bool
        ensures { result ≡ is_marked self.now.words commit }
    {
        let mark = mark_of(commit);
        self.words[usize::from(mark / 64)] >> u32::from(mark % 64) & 1 == 1
    }

    /// Puts a commit's mark.
    pub(crate) fn put(&mut self, commit: CommitId)
        ensures put { is_marked self.new.words commit ≡ true }
        ensures kept { (c : CommitId) → is_marked self.old.words c ≡ true → is_marked self.new.words c ≡ true }
    {
        let mark = mark_of(commit);
        self.words[usize::from(mark / 64)] |= 1 << u32::from(mark % 64);
    }
}

/// Which mark is a commit's. An id is a digest, so any two of its bytes spread commits evenly.
fn mark_of(commit: CommitId) -> u16
    ensures mark { result ≡ mark_of commit }
    ensures in_range { result < MARKS }
{
    let bytes = commit.bytes();
    (u16::from(bytes[18]) * 256 + u16::from(bytes[19])) % MARKS
}
