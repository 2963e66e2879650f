ghost use Rattle.std.specs.Prelude.{◌≡◌, ◌⊎◌, ℕ, IfOk, IfErr, IsTrue, MatchResult, List, Err, false, true};
ghost use Rattle.std.specs.List.{list_all};
ghost use Rattle.fk_base.specs.Characters.{is_line_byte};
ghost use Rattle.fk_subst.specs.Template.{IsTemplateOf};
ghost use Rattle.fk_subst.specs.CommandFault.{FirstCommandFault, IsFaultless, is_template};
ghost use Rattle.fk_subst.specs.declared.piece.Piece.{Piece};

use crate::CommandFault;
use crate::scan::{first_command_fault, is_blank};
use crate::word::{Word, cut_word};
use fk_base::NoMemory;
use std::alloc::Global;
use std::marker::Model;

/// A command's words, cut into plain text and names. Only `split` makes one, so it keeps the bounds of a text that
/// `split` took.
#[derive(Drop)]
pub struct Template {
    words: Vec<Word>,
}

impl Model for Template {
    ghost use Rattle.std.specs.Prelude.{List, ℕ, IsTrue};
    ghost use Rattle.std.specs.List.{list_all};
    ghost use Rattle.fk_subst.specs.declared.piece.Piece.{Piece};
    ghost use Rattle.fk_base.specs.Characters.{is_line_byte};
    ghost use Rattle.fk_subst.specs.Template.{IsTemplateOf};

    ghost Value = { List (List Piece) };

    ghost view = { λ t. t.words.items };

    ghost invariant = { λ t. (text : List ℕ) × IsTrue (list_all is_line_byte text) × IsTemplateOf text t.words.items };
}

impl Template {
    pub(crate) fn words(&self) -> &[Word]
        ensures words { result.now ≡ self.now }
        ensures bounds { (text : List ℕ) × IsTrue (list_all is_line_byte text) × IsTemplateOf text self.now }
    {
        &self.words
    }
}

/// Whether a text has a template. It takes no memory.
pub fn is_template(text: &[u8]) -> bool
    ensures { result ≡ is_template text.now }
{
    match first_command_fault(text) {
        Some(_) => false,
        None => true,
    }
}

/// The template of a text. Want of memory hides no fault.
pub fn split(alloc: Global, text: &[u8]) -> Result<Template, CommandFault>
    requires { IsTrue (list_all is_line_byte text.now) }
    ensures split { IfOk result (λ template. IsTemplateOf text.now template) }
    ensures right { (template : List (List Piece)) → IsTemplateOf text.now template
        → MatchResult result (λ t. t ≡ template) (λ fault. fault ≡ CommandFault.NoMemory) }
    ensures fault { IfErr result (λ fault. (fault ≡ CommandFault.NoMemory) ⊎ FirstCommandFault text.now fault) }
    ensures refused { (fault : CommandFault) → FirstCommandFault text.now fault → result ≡ Err fault }
    ensures whether { MatchResult result (λ _. is_template text.now ≡ true)
        (λ fault. (fault ≡ CommandFault.NoMemory) ⊎ (is_template text.now ≡ false)) }
{
    match first_command_fault(text) {
        Some(fault) => Err(fault),
        None => Ok(cut_words(alloc, text)?),
    }
}

/// Cuts a text that has a template.
fn cut_words(alloc: Global, text: &[u8]) -> Result<Template, NoMemory>
    requires bytes { IsTrue (list_all is_line_byte text.now) }
    requires faultless { IsFaultless text.now }
    ensures { IfOk result (λ template. IsTemplateOf text.now template) }
{
    let mut words = Vec::new(alloc);
    for run in text.split(|byte| is_blank(*byte)) {
        if !run.is_empty() {
            words.push(cut_word(alloc, run)?)?;
        }
    }
    Ok(Template { words })
}
