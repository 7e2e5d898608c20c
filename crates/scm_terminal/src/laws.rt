//! Laws of the definitions that the contracts cite.
ghost use Rattle.std.specs.Prelude.{◌≡◌, ◌++◌, ◌∷◌, [], ℕ, List, Bool, Some, true, false};
ghost use Rattle.std.specs.List.{All, flat_map};
ghost use Rattle.scm_input.specs.declared.terminal.KeyEvent.{KeyEvent};
ghost use Rattle.scm_input.specs.declared.terminal.TerminalEvent.{TerminalEvent};
ghost use Rattle.scm_input.specs.declared.terminal.TerminalEvent.TheVariants as terminal;
ghost use Rattle.scm_terminal.specs.declared.tokens.Token.{Token};
ghost use Rattle.scm_terminal.specs.Bytes.{begins_sequence, escape};
ghost use Rattle.scm_terminal.specs.Sequences.{unrecognized_token};
ghost use Rattle.scm_terminal.specs.Streams.{
  Finished,
  HasMark,
  HasNoEscape,
  IsCut,
  IsQuiet,
  StayPasted,
  first,
  is_pasted_after,
  paste_end,
  rest,
};
ghost use Rattle.scm_terminal.specs.Silences.{
  Start,
  after_silence,
  bytes_of_bursts,
  is_interrupt,
  is_pasted_from,
};
ghost use Rattle.scm_terminal.specs.KeyBytes.{AreTyped};
ghost use Rattle.scm_terminal.specs.Tearing.{
  AreTorn,
  HaveNoInterrupt,
  IsFreed,
  IsSilent,
  IsToken,
  StayPastedTorn,
  SurvivesTearing,
  is_sequence,
};
ghost use Rattle.scm_terminal.specs.Grammar.{
  AreRead,
  BeginsWithParts,
  IsKey,
  IsOneToken,
  Parts,
  is_well_formed,
  may_be_followed,
  written,
};
ghost use Rattle.scm_terminal.specs.AnyTerminal.{AreWide, Display, Leaving, May, Showing, step};
ghost use Rattle.scm_terminal.specs.Sent.{IsOfOne, IsSentWithRoom};
ghost use Rattle.scm_terminal.specs.Reading.{read_commands};
ghost use Rattle.scm_terminal.specs.Terminal.{
  AreApart,
  AreReadable,
  Before,
  Command,
  HoldsNoControl,
  bytes_of,
};

/// Proves that a stream may be cut anywhere: its pieces have the same events as the whole stream.
pub fn streams_may_be_cut()
    ensures { (is_pasted : Bool) (a b : List ℕ) → IsCut is_pasted a b }
{}

/// Proves that an escape begins a new token, whatever bytes precede it: a decoder always recovers.
pub fn an_escape_begins_anew()
    ensures { (bytes : List ℕ) → rest (bytes ++ 27 ∷ []) ≡ 27 ∷ [] }
{}

/// Proves that the end mark of a bracketed paste ends the paste, whatever bytes precede it. It
/// leaves no unfinished token.
pub fn a_paste_ends_with_its_mark()
    ensures ends { (is_pasted : Bool) (bytes : List ℕ)
        → is_pasted_after is_pasted (bytes ++ paste_end) ≡ false }
    ensures waits { (bytes : List ℕ) → rest (bytes ++ paste_end) ≡ [] }
{}

/// Proves that a bracketed paste without an escape has only `Other` events. The bytes after it have
/// the same events as without the paste.
pub fn what_is_pasted_does_not_act()
    ensures { (pasted more : List ℕ) → HasNoEscape pasted → IsQuiet pasted more }
{}

/// Proves that terminals can type each row of the key table: of its bytes, followed by a silence,
/// the only event is the key of the row.
pub fn each_key_can_be_typed()
    ensures { AreTyped }
{}

/// Proves that nothing but its end mark ends a bracketed paste, whatever bytes it has, escapes
/// included: until the mark all its events are `Other`.
pub fn only_its_mark_ends_a_paste()
    ensures { (bytes : List ℕ) → (HasMark bytes → ⊥) → StayPasted bytes }
{}

/// Proves that silences do not end a bracketed paste either, but for a silence after a byte 3 that
/// is alone between two silences.
pub fn a_silence_ends_no_paste()
    ensures { (bursts : List (List ℕ)) → HaveNoInterrupt bursts
        → (HasMark (bytes_of_bursts bursts) → ⊥) → StayPastedTorn bursts }
{}

/// Proves that a lost end mark of a bracketed paste never locks the user out: after any bytes of
/// the paste and a silence, Ctrl-C before another silence is the key, and ends the paste.
pub fn a_lost_mark_locks_nobody_out()
    ensures { (start : Start) (bytes : List ℕ) → is_pasted_from start bytes ≡ true
        → is_interrupt bytes ≡ false → IsFreed (after_silence start bytes) }
{}

/// Proves that silences may tear an escape sequence anywhere, any number of times: its event comes
/// once, perhaps behind the Esc key. So no part of a sequence is taken for a letter key.
pub fn a_torn_sequence_comes_once()
    ensures { (bytes : List ℕ) (event : TerminalEvent) → is_sequence bytes ≡ true
        → IsToken bytes event → SurvivesTearing bytes event }
{}

/// Proves that each row of the key table whose bytes are an escape sequence is its key, however
/// silences tear the bytes.
pub fn torn_keys_are_the_same_keys()
    ensures { AreTorn }
{}

/// Proves that a silence after a silence changes nothing: a caller may report one silence often.
pub fn a_second_silence_changes_nothing()
    ensures { (start : Start) (bytes : List ℕ) → IsSilent (after_silence start bytes) }
{}

/// Proves that the grammar of ECMA-48, a second definition, reads the sequences of the key table as
/// the keys that the table names.
pub fn the_grammar_reads_the_keys()
    ensures { AreRead }
{}

/// Proves that the decoder finds every key that the grammar names: the bytes of its sequence are
/// one token, and the event is the key.
pub fn the_decoder_finds_the_keys_of_the_grammar()
    ensures { (parts : Parts) (key : KeyEvent) → IsKey parts key
        → IsToken (written parts) (terminal.Key key) }
{}

/// Proves that each sequence of the grammar is one token, whatever bytes come after it. Left out
/// are the final bytes `M` and `[`, which two old forms continue with more bytes.
pub fn sequences_are_whole_tokens()
    ensures { (parts : Parts) → is_well_formed parts ≡ true → may_be_followed parts ≡ false
        → IsOneToken parts }
{}

/// Proves that a token that begins with `ESC [` or `ESC O` is a sequence of the grammar, unless it
/// is not recognized.
pub fn tokens_are_whole_sequences()
    ensures { (opening : ℕ) (bytes : List ℕ) (token : Token) (n : ℕ)
        → begins_sequence opening ≡ true → first (escape ∷ opening ∷ bytes) ≡ Finished token n
        → (token ≡ unrecognized_token → ⊥) → BeginsWithParts (escape ∷ opening ∷ bytes) n }
{}

/// Proves that a symbol that is safe to put has no control character and no control byte. So no
/// text of a grid can send a command to the terminal.
pub fn symbols_hold_no_control()
    ensures { (symbol : List ℕ) → (columns : ℕ) → HoldsNoControl symbol columns }
{}

/// Proves that commands are read back from their bytes if they are `AreReadable`. Such commands put
/// only kept clusters and stay within 65,536 rows and columns. They move the cursor before and
/// after each cluster of several bytes.
pub fn commands_are_read_back()
    ensures { (commands : List Command) → AreReadable commands
        → read_commands (flat_map bytes_of commands) ≡ Some commands }
{}

/// Proves that two lists of `AreReadable` commands with the same bytes are equal.
pub fn bytes_are_read_in_one_way()
    ensures { (commands others : List Command) → AreReadable commands → AreReadable others
        → flat_map bytes_of commands ≡ flat_map bytes_of others → commands ≡ others }
{}

/// Proves that `May` asks nothing of symbols of several bytes but that the painter's stay on their
/// row: a terminal may show them by any function of the symbol, its column, its style and the row.
/// With a symbol that the painter would replace it may do anything.
pub fn terminals_show_symbols_as_they_like()
    ensures { (showing : Showing) → (leaving : Leaving) → (command : Command) → (t : Display)
        → AreWide t → May command t (step showing leaving command t) }
{}

/// Proves that a symbol of one character is sent wherever it has room for its columns. The only
/// exception is a mark at the first column.
pub fn symbols_of_one_character_are_sent()
    ensures { (c : ℕ) (symbol : List ℕ) → IsOfOne c symbol → IsSentWithRoom c symbol }
{}
