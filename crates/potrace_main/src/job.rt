//! The document of a page, as a job of the workers.
ghost use Rattle.std.specs.Prelude.{◌≡◌, ℕ, List};
ghost use Rattle.bit_image.specs.Page.{IsPage, Page};
ghost use Rattle.page_trace.specs.Document.{IsDocument};
ghost use Rattle.pt_core.specs.Needs.{CanWrite};

use bit_image::Bitmap;
use page_trace::{document, document_of_given, pages_have_documents};
use page_workers::PageJob;
use pt_core::{NoMemory, Settings};
use std::alloc::Global;
use std::marker::Model;

/// Makes the document of a page under some settings. Contracts see these.
#[derive(Drop)]
pub(crate) struct DocumentJob {
    settings: Settings,
}

impl Model for DocumentJob {
    ghost use Rattle.pt_core.specs.Needs.{CanWrite};
    ghost use Rattle.pt_core.specs.declared.settings.Settings.{Settings};

    ghost Value = { Settings };

    ghost view = { λ job. job.settings };

    ghost invariant = { λ job. CanWrite job.settings };
}

impl PageJob for DocumentJob {
    ghost use Rattle.page_trace.specs.Document.{IsDocument};
    ghost use Rattle.page_trace.proofs.OneTrace.{one_document};

    ghost belongs = { λ job page text. IsDocument page job text };

    fn page(&self, alloc: Global, page: &Bitmap) -> Result<Vec<u8>, NoMemory> {
        document(alloc, page, &self.settings)
    }

    fn given_page(&self, alloc: Global, page: Bitmap) -> Result<Vec<u8>, NoMemory> {
        document_of_given(alloc, page, &self.settings)
    }

    ghost one_text = { λ job page a b this that. one_document job.backend page job a b this that };
}

impl DocumentJob {
    pub(crate) fn new(settings: Settings) -> DocumentJob
        requires { CanWrite settings }
        ensures { result ≡ settings }
    {
        DocumentJob { settings }
    }

    /// Each page has a document under its settings. This does nothing.
    pub(crate) fn has_documents(&self)
        ensures { (page : Page) → IsPage page → (text : List ℕ) × IsDocument page self.now text }
    {
        let _settings = &self.settings;
        pages_have_documents();
    }
}
