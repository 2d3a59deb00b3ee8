//! What holds of shown texts, written scripts and reading together.
ghost use Rattle.std.specs.Prelude.{◌≡◌, ◌≤◌, [], List, Ok, Some, length, IsTrue};
ghost use Rattle.std.specs.List.{All, AllByRecursion};
ghost use Rattle.doc_key.specs.declared.doc_key.DocKey.{DocKey};
ghost use Rattle.doc_key.specs.Showing.{shown as shown_key};
ghost use Rattle.doc_key.specs.Spelling.{has_spelling as key_has_spelling, is_column, spelling as key_spelling, IsInRange as IsKeyInRange};
ghost use Rattle.doc_value.specs.declared.primitive.Primitive.{Primitive};
ghost use Rattle.doc_value.specs.Reading.{IsBytes};
ghost use Rattle.doc_value.specs.Showing.{shown as shown_value};
ghost use Rattle.doc_value.specs.Spelling.{has_spelling, spelling, IsInRange};
ghost use Rattle.sub_doc_key.specs.Showing.{shown as shown_document, shown_path};
ghost use Rattle.txn_data.specs.declared.commands.Commands.{Commands};
ghost use Rattle.txn_data.specs.declared.config.Config.{Config};
ghost use Rattle.txn_data.specs.declared.place.Place.{Place};
ghost use Rattle.cluster_config.specs.Head.{IsSpelled};
ghost use Rattle.script_text.specs.declared.document.Document.{Document};
ghost use Rattle.script_text.specs.Saying.{IsPlaced, IsSaid};
ghost use Rattle.script_text.specs.Script.{most_bytes, script_of};
ghost use Rattle.script_text.specs.Terms.{document_of, is_document, path_for, place_of, subkey_of, value_of};
ghost use Rattle.script_text.specs.Written.{AreInBytes, written};

/// What is shown of a value, a key or a path is read as what was shown, if its spelling is of bytes.
pub fn what_is_shown_is_read()
    ensures values { (v : Primitive) → IsInRange v → IsTrue (is_column v) → IsBytes (spelling v) → value_of (shown_value v) ≡ Some (spelling v) }
    ensures subkeys { (v : Primitive) → IsInRange v → IsTrue (has_spelling v) → IsBytes (spelling v) → subkey_of (shown_value v) ≡ Some v }
    ensures keys { (key : DocKey) → IsKeyInRange key → IsTrue (key_has_spelling key) → IsBytes (key_spelling key)
        → document_of (shown_key key) ≡ Some (record { key = key; subkeys = [] }) }
    ensures paths { (d : Document) → IsKeyInRange d.key → AllByRecursion IsInRange d.subkeys → IsTrue (is_document d) → All IsBytes (path_for d)
        → document_of (shown_document d.key d.subkeys) ≡ Some d }
    // A place in a plan is read as this place.
    ensures places { (config : Config) (place : Place) → IsPlaced config place → All IsBytes place.path
        → place_of config.tablets (shown_path place.path) ≡ Some place }
{}

/// What is written is read as the same cluster and the same plan, unless it is longer than a script may be.
pub fn what_is_written_is_read()
    ensures { (config : Config) (plan : Commands) → IsSpelled config → IsSaid config plan → AreInBytes plan
        → length (written config plan) ≤ most_bytes → script_of (written config plan) ≡ Ok (config, plan) }
{
    cluster_config::what_is_written_is_read();
}
