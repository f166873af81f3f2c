// The forms of attributes' values: a number, a value, a letter, a type, a use, an option. Above it stand the tags, which ask them in the
// order of the attributes, and the elements, which take the types and uses from here.
#![tactic(auto)]

ghost use Rattle.std.specs.Prelude.{◌≡◌};
ghost use Rattle.spans.specs.rule.Heard.{heard};
ghost use Rattle.forms.specs.rule.Form.{form_kind, use_of, fits_of};

// The type that a stretch names: 1 single, 2 multiple, 3 quantity, 4 character, 5 logical; 0 none.
pub fn kind_in(s: &[u8]) -> usize
    ensures { result ≡ form_kind (heard s.now 0) }
{
    if spans::is_word(s, b"single") {
        return 1;
    }
    if spans::is_word(s, b"multiple") {
        return 2;
    }
    if spans::is_word(s, b"quantity") {
        return 3;
    }
    if spans::is_word(s, b"character") {
        return 4;
    }
    if spans::is_word(s, b"logical") {
        return 5;
    }
    0
}

// The use that a stretch names: 1 serial, 2 weight; 0 none.
pub fn use_in(s: &[u8]) -> usize
    ensures { result ≡ use_of (heard s.now 0) }
{
    if spans::is_word(s, b"serial") {
        return 1;
    }
    if spans::is_word(s, b"weight") {
        return 2;
    }
    0
}

// Whether a value has a form: 0 any, 1 a number, 2 what values are written with, 3 one letter, 4 a type, 5 a use, 6 the option.
pub fn fits(form: usize, s: &[u8]) -> bool
    ensures { result ≡ fits_of form (heard s.now 0) }
{
    if form == 0 {
        return true;
    }
    if form == 1 {
        return 0 < spans::count_in(1, s);
    }
    if form == 2 {
        return 0 < spans::count_in(2, s);
    }
    if form == 3 {
        return spans::count_in(3, s) == 1;
    }
    if form == 4 {
        return 0 < kind_in(s);
    }
    if form == 5 {
        return 0 < use_in(s);
    }
    spans::is_word(s, b"standardnames")
}
