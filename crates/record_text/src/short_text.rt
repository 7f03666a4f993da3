//! Texts of bounded length.
ghost use Rattle.std.specs.Prelude.{◌≡◌, ◌↔◌, ◌<◌, ◌≤◌, length, refl, string_bytes, IfOk};
ghost use Rattle.std.specs.Cmp.{partial_equiv_from_equiv, partial_order_from_agreeing_total};
ghost use Rattle.std.specs.Cmp.Lexicographic.{nat_list_cmp_total, nat_list_eq_equiv};
ghost use Rattle.std.specs.Ordering.{as_partial_cmp};
ghost use Rattle.record_text.specs.Order.{text_cmp, text_eq};
ghost use Rattle.record_text.specs.OrderLaws.{text_ties};

use crate::Memory;
use std::alloc::Global;
use std::cmp::Ordering;
use std::marker::Model;
use std::rc::Rc;
use thiserror::Error;

// The most bytes of a text.
const MAX_TEXT: usize = 255;

/// Why a text was not taken.
#[derive(Clone, Copy, Debug, PartialEq, Eq, Error)]
pub enum TextFault {
    /// It has over 255 bytes.
    #[error("the text is too long")]
    Long,
    /// There was no memory.
    #[error("out of memory")]
    Memory,
}

/// A text of at most 255 bytes of UTF-8, seen as its bytes. Texts are ordered by their bytes.
#[derive(Debug, Drop)]
pub struct ShortText {
    // Copies share it.
    text: Rc<String>,
}

impl Model for ShortText {
    ghost use Rattle.std.specs.Prelude.{◌≤◌, ℕ, List, length, string_bytes};

    ghost Value = { List ℕ };

    ghost view = { λ t. string_bytes t.text.value };

    ghost invariant = { λ t. length (string_bytes t.text.value) ≤ 255 };
}

impl ShortText {
    /// The text, or `Long` where it has over 255 bytes.
    pub fn new(alloc: Global, text: &str) -> Result<ShortText, TextFault>
        ensures value { IfOk result (λ taken. taken ≡ text.now) }
        ensures short { IfOk result (λ taken. length taken ≤ 255) }
        ensures long { (result ≡ Err TextFault.Long) ↔ (255 < length text.now) }
    {
        if text.len() > MAX_TEXT {
            return Err(TextFault::Long);
        }
        match shared(alloc, text) {
            Ok(text) => Ok(ShortText { text }),
            Err(_) => Err(TextFault::Memory),
        }
    }

    /// The text, lent.
    pub fn as_str(&self) -> &str
        ensures value { result.now ≡ self.now }
        ensures short { length result.now ≤ 255 }
    {
        self.text.as_str()
    }

    pub(crate) fn try_copy(&self) -> Result<ShortText, Memory>
        ensures { IfOk result (λ copy. copy ≡ self.now) }
    {
        let text = self.text.clone()?;
        Ok(ShortText { text })
    }
}

// A text that copies can share.
fn shared(alloc: Global, text: &str) -> Result<Rc<String>, Memory>
    ensures { IfOk result (λ shared. string_bytes shared.value ≡ text.now) }
{
    let text = String::from_str(alloc, text)?;
    Ok(Rc::new(alloc, text)?)
}

impl PartialEq for ShortText {
    ghost eq = { text_eq };

    ghost laws = { partial_equiv_from_equiv nat_list_eq_equiv };

    fn eq(&self, other: &ShortText) -> bool {
        self.as_str() == other.as_str()
    }
}

impl Eq for ShortText {
    ghost laws = { nat_list_eq_equiv };
}

impl PartialOrd for ShortText {
    ghost partial_cmp = { as_partial_cmp text_cmp };

    ghost laws = { partial_order_from_agreeing_total text_cmp nat_list_cmp_total (λ a b. refl) text_ties };

    fn partial_cmp(&self, other: &ShortText) -> Option<Ordering> {
        Some(self.cmp(other))
    }
}

impl Ord for ShortText {
    ghost cmp = { text_cmp };

    ghost total = { nat_list_cmp_total };

    ghost matches_partial_cmp = { λ a b. refl };

    ghost matches_eq = { text_ties };

    fn cmp(&self, other: &ShortText) -> Ordering {
        self.as_str().cmp(other.as_str())
    }
}
