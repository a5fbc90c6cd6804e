//! Workers without a run: no clause says that one of them draws the pages in their order, that each page passes the
//! gate before its text is made, and that the calls that allocate succeed.

use bit_image::Bitmap;
use page_samples::noise;
use page_workers::{PageJob, trace_all};
use pt_core::{Gate, NoGate, NoMemory};
use std::alloc::Global;
use std::sync::atomic::{AtomicU64, Ordering};
use std::test::Fail;

/// A job whose text is the width of the page, as one byte.
pub struct Width;

impl PageJob for Width {
    ghost use Rattle.std.specs.Prelude.{◌≡◌, ◌∷◌, [], ◌%◌};
    ghost use Rattle.std.proofs.Common.{sym, ◌∙◌};

    ghost belongs = { λ _ page text. text ≡ page.width % 256 ∷ [] };

    fn page(&self, alloc: Global, page: &Bitmap) -> Result<Vec<u8>, NoMemory> {
        let byte = (page.width() % 256) as u8;
        Ok(vec![in alloc; byte]?)
    }

    ghost one_text = { λ job page a b x y. x ∙ sym y };
}

/// A page of one row for each width.
pub fn pages(alloc: Global, widths: &[u8]) -> Result<Vec<Bitmap>, Fail> {
    let mut pages = Vec::new(alloc);
    for width in widths {
        pages.push(noise(alloc, usize::from(*width), 1, 0)?)?;
    }
    Ok(pages)
}

/// Some numbers of workers, and the widths of pages, of which none and then fewer than workers and then more.
const SHARED: &[(u32, &[u8])] = &[
    (2, &[]),
    (1, &[5, 4, 3, 2, 1, 6, 7]),
    (2, &[5, 4, 3, 2, 1, 6, 7]),
    (3, &[5, 4, 3, 2, 1, 6, 7]),
    (64, &[5, 4, 3, 2, 1, 6, 7]),
];

#[test]
fn any_number_of_workers_gives_the_texts_in_page_order(rt: HostRuntime) -> Result<(), Fail> {
    let alloc = rt.alloc();
    for (workers, widths) in SHARED {
        let workers = (*workers).clamp(1, 64);
        let pages = pages(alloc, widths)?;
        assert!(rt; pages.len() < 100);
        let texts = trace_all(&rt, alloc, &Width, &pages, workers, &NoGate)?.concat(alloc)?;
        assert_eq!(rt; texts.as_slice(), *widths, "by {workers}");
    }
    Ok(())
}

/// A gate and a job that count their calls, and note where pages pass the gate out of order or a text is made too
/// early.
#[derive(Drop)]
struct Watch {
    passed: AtomicU64,
    made: AtomicU64,
    amiss: AtomicU64,
}

impl Gate for Watch {
    fn at(&self, page: u32) {
        if self.passed.fetch_add(1, Ordering::SeqCst) != u64::from(page) {
            self.amiss.store(1, Ordering::SeqCst);
        }
    }
}

impl PageJob for Watch {
    ghost use Rattle.std.specs.Prelude.{◌≡◌, []};
    ghost use Rattle.std.proofs.Common.{sym, ◌∙◌};

    ghost belongs = { λ _ _ text. text ≡ [] };

    fn page(&self, alloc: Global, _page: &Bitmap) -> Result<Vec<u8>, NoMemory> {
        if self.passed.load(Ordering::SeqCst) <= self.made.fetch_add(1, Ordering::SeqCst) {
            self.amiss.store(1, Ordering::SeqCst);
        }
        Ok(Vec::new(alloc))
    }

    ghost one_text = { λ job page a b x y. x ∙ sym y };
}

#[test]
fn each_page_passes_the_gate_in_order_before_its_text_is_made(rt: HostRuntime) -> Result<(), Fail> {
    let watch = Watch {
        passed: AtomicU64::new(0),
        made: AtomicU64::new(0),
        amiss: AtomicU64::new(0),
    };
    let pages = pages(rt.alloc(), &[1, 2, 3])?;
    assert!(rt; pages.len() == 3);
    let texts = trace_all(&rt, rt.alloc(), &watch, &pages, 1, &watch)?;
    let told = (
        watch.passed.load(Ordering::SeqCst),
        watch.made.load(Ordering::SeqCst),
        watch.amiss.load(Ordering::SeqCst),
    );
    assert_eq!(rt; (texts.len(), told), (3, (3, 3, 0)));
    Ok(())
}
