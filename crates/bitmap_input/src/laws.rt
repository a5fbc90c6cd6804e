//! Laws about the pages of a file, for callers and for readers of the definitions.
ghost use Rattle.std.specs.Prelude.{◌≡◌, ℕ, ◌≤◌, Bool, false, List, ◌++◌, length, take, All};
ghost use Rattle.bitmap_input.specs.Cut.{FileEnd, is_by_end};
ghost use Rattle.bitmap_input.specs.PageParts.{run_length, gap_length};
ghost use Rattle.bitmap_input.specs.Sets.{AllBytes, IsGap};
ghost use Rattle.bit_image.specs.Page.{IsPage, Page as BitmapPage};
ghost use Rattle.bit_image.specs.PbmText.{pbm_text};
ghost use Rattle.bitmap_input.specs.Raw.{IsShown, Raw, shown};
ghost use Rattle.bitmap_input.specs.Front.{front, page_at};
ghost use Rattle.bitmap_input.specs.Front.Answer.{Page};
ghost use Rattle.bitmap_input.specs.PageText.{IsPageText};
ghost use Rattle.bitmap_input.specs.FilePages.{FilePages};

/// A part that is taken from the beginning of the bytes is the longest one of its kind: a run of whitespace or
/// digits, or a gap.
pub fn cuts_are_longest()
    ensures run { (p : ℕ → Bool) (bytes : List ℕ) → AllBytes p (take (run_length p bytes) bytes) }
    ensures longest_run { (p : ℕ → Bool) (bytes : List ℕ) (n : ℕ) → n ≤ length bytes
        → AllBytes p (take n bytes) → n ≤ run_length p bytes }
    ensures gap { (bytes : List ℕ) → IsGap (take (gap_length false bytes) bytes) }
    ensures longest_gap { (bytes : List ℕ) (n : ℕ) → n ≤ length bytes → IsGap (take n bytes)
        → n ≤ gap_length false bytes }
{}

/// The bytes of a page are its parts, one after another: whitespace, a magic number, and what its format
/// requires after it.
pub fn pages_are_parts()
    ensures parts { (later : Bool) (bytes : List ℕ) (raw : Raw) (used : ℕ)
        → front later bytes ≡ Page raw used → IsPageText raw (take used bytes) }
    ensures within { (later : Bool) (bytes : List ℕ) (raw : Raw) (used : ℕ)
        → front later bytes ≡ Page raw used → used ≤ length bytes }
{}

/// A result that no further bytes could change stays the same when bytes are added, and no further bytes can
/// change it then either.
pub fn fronts_stay()
    ensures same { (later : Bool) (bytes more : List ℕ) → is_by_end (page_at later bytes) ≡ false
        → front later (bytes ++ more) ≡ front later bytes }
    ensures decided { (later : Bool) (bytes more : List ℕ)
        → is_by_end (page_at later bytes) ≡ false
        → is_by_end (page_at later (bytes ++ more)) ≡ false }
{}

/// A file has only one list of pages, and one ending.
pub fn file_pages_are_one()
    ensures some { (later : Bool) (bytes : List ℕ)
        → (raws : List Raw) × (ending : FileEnd) × FilePages later bytes raws ending }
    ensures same { (later : Bool) (bytes : List ℕ) (raws others : List Raw) (ending other : FileEnd)
        → FilePages later bytes raws ending → FilePages later bytes others other
        → (others ≡ raws) × (other ≡ ending) }
{}

/// What the pages of a file show are pages, with sides in range.
pub fn file_pages_are_pages()
    ensures { (later : Bool) (bytes : List ℕ) (raws : List Raw) (ending : FileEnd) (level : ℕ)
        (invert : Bool)
        → FilePages later bytes raws ending → All (λ raw. IsPage (shown level invert raw)) raws }
{}

/// The raw PBM text of a page contains exactly one page, which takes all bytes and shows the same page at any
/// level.
pub fn pbm_texts_show_their_pages()
    ensures { (page : BitmapPage) → IsPage page → (raw : Raw)
        × (front false (pbm_text page) ≡ Page raw (length (pbm_text page)))
        × ((level : ℕ) → IsShown level false page raw) }
{}
