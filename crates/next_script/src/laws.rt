//! What the form and the reader's lines have to do with each other.
ghost use Rattle.std.specs.Prelude.{◌≡◌, ◌↔◌, ℕ, List, Ok};
ghost use Rattle.next_setup.specs.declared.script.Script.{Script};
ghost use Rattle.next_script.specs.Breaks.{Breaks, IsRefusedAt};
ghost use Rattle.next_script.specs.Forms.{IsScript};
ghost use Rattle.next_script.specs.Scripts.{script_of};

/// Each text of the form is read as the script that it is of.
pub fn form_is_read()
    ensures { (bytes : List ℕ) (script : Script) → IsScript bytes script → script_of bytes ≡ Ok script }
{}

/// Bytes are refused at a line just where it is the first that breaks the form.
pub fn first_break_is_told()
    ensures { (bytes : List ℕ) (line : ℕ) → IsRefusedAt line (script_of bytes) ↔ Breaks bytes line }
{}
