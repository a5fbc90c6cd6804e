//! What follows from the definition of a run's outcome.
ghost use Rattle.std.specs.Prelude.{◌≡◌, ℕ, List, length};
ghost use Rattle.bit_image.specs.PbmText.{pbm_text};
ghost use Rattle.run_output.specs.Told.{Sinks};
ghost use Rattle.mkbitmap_words.specs.FilterAsked.{IsFilterAsked};
ghost use Rattle.mkbitmap_words.specs.declared.ask.FilterAsk.TheVariants.{Page};
ghost use Rattle.mkbitmap_words.specs.declared.setup.Setup.{Setup};
ghost use Rattle.mkbitmap_run.specs.PageHeader.{PageHeader};
ghost use Rattle.mkbitmap_run.specs.FilterRun.{WritesResult};
ghost use Rattle.mkbitmap_run.specs.Result.{result_page, result_text, scan_of};
ghost use Rattle.mkbitmap_run.specs.Shown.{WritesPage, filtered_page};

/// The document of a whole page is the text that `pbm` writes of the result.
pub fn whole_results_are_pbm_texts()
    ensures { (setup : Setup) (header : PageHeader) (rows : List (List ℕ))
        → length rows ≡ header.height
        → result_text setup header rows ≡ pbm_text (result_page setup (scan_of header rows)) }
{}

/// A document that a run writes whole shows a reader of pages exactly one page: the result of filtering the page on
/// standard input.
pub fn whole_results_show_their_pages()
    ensures { (words : List (List ℕ)) (setup : Setup) (bytes : List ℕ) (old new : Sinks)
        → IsFilterAsked words (Page setup) → (whole : WritesResult setup bytes old new)
        → WritesPage (filtered_page setup whole.header whole.rest) old new }
{}
