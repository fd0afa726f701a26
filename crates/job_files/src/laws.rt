//! What holds of files of lemmas and of flows: a law, on a function that does nothing.
ghost use Rattle.std.specs.Prelude.{◌≡◌, ℕ, List};
ghost use Rattle.grammar_core.specs.Spelling.{Room};
ghost use Rattle.murphi_ast.specs.Spelling as bytes;
ghost use Rattle.murphi_ast.specs.declared.job.Flow.{Flow};
ghost use Rattle.murphi_ast.specs.declared.job.Lemma.{Lemma};
ghost use Rattle.murphi_ast.specs.declared.token.Token.{Token};
ghost use Rattle.job_files.specs.Files.{SpellsFlows, SpellsLemmas};

use murphi_lex::one_reading;

/// No bytes spell two lists of lemmas, and none spell two lists of flows, however many nestings may be open.
pub fn one_list()
    ensures lemmas { (bs : List ℕ) → (ts us : List Token) → (r q : Room) → (ls ms : List Lemma) → bytes.Spells bs ts →
        bytes.Spells bs us → SpellsLemmas r ts ls → SpellsLemmas q us ms → ls ≡ ms }
    ensures flows { (bs : List ℕ) → (ts us : List Token) → (r q : Room) → (fs gs : List Flow) → bytes.Spells bs ts →
        bytes.Spells bs us → SpellsFlows r ts fs → SpellsFlows q us gs → fs ≡ gs }
{
    one_reading();
}
