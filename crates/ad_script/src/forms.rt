//! What the words of a line may be.

ghost use Rattle.std.specs.Prelude.{◌≡◌, bytes_eq, option_map};
ghost use Rattle.ad_script.specs.Forms.{call_form, form_of, load_form, move_form, stack_form, workers_form};
ghost use Rattle.ad_script.specs.Private.Seen.{form_seen, texts};

/// What is to be done by a line, in the words that say it.
#[derive(Clone, Copy)]
pub enum Form<'a> {
    /// Nothing.
    Blank,
    /// There are so many workers.
    Workers {
        count: &'a [u8],
    },
    /// A module is loaded from a file.
    Load {
        name: &'a [u8],
        file: &'a [u8],
    },
    /// A worker calls an export of a module.
    Call {
        worker: &'a [u8],
        target: &'a [u8],
        args: &'a [&'a [u8]],
    },
    /// Modules are moved.
    Move {
        names: &'a [&'a [u8]],
    },
    /// A worker gets a fresh stack.
    Stack {
        worker: &'a [u8],
    },
}

/// The form of these words, or `None` where the first is unknown, or a word is missing or too many.
#[tactic(auto, unfolding(crate::specs::Forms::form_of))]
pub fn form_of<'a>(words: &'a [&'a [u8]]) -> Option<Form<'a>>
    ensures { option_map form_seen result ≡ form_of (texts words.now) }
{
    let [first, rest @ ..] = words else {
        return Some(Form::Blank);
    };
    if is_word(first, "workers") {
        workers_form(rest)
    } else if is_word(first, "load") {
        load_form(rest)
    } else if is_word(first, "call") {
        call_form(rest)
    } else if is_word(first, "move") {
        move_form(rest)
    } else if is_word(first, "stack") {
        stack_form(rest)
    } else {
        None
    }
}

/// Tests for a word of this text.
fn is_word(word: &[u8], text: &str) -> bool
    ensures { result ≡ bytes_eq word.now text.now }
{
    word == text.as_bytes()
}

fn workers_form<'a>(words: &'a [&'a [u8]]) -> Option<Form<'a>>
    ensures { option_map form_seen result ≡ workers_form (texts words.now) }
{
    match words {
        [count] => Some(Form::Workers { count }),
        _ => None,
    }
}

fn load_form<'a>(words: &'a [&'a [u8]]) -> Option<Form<'a>>
    ensures { option_map form_seen result ≡ load_form (texts words.now) }
{
    match words {
        [name, file] => Some(Form::Load { name, file }),
        _ => None,
    }
}

fn call_form<'a>(words: &'a [&'a [u8]]) -> Option<Form<'a>>
    ensures { option_map form_seen result ≡ call_form (texts words.now) }
{
    match words {
        [worker, target, args @ ..] => Some(Form::Call {
            worker,
            target,
            args,
        }),
        _ => None,
    }
}

fn move_form<'a>(words: &'a [&'a [u8]]) -> Option<Form<'a>>
    ensures { option_map form_seen result ≡ move_form (texts words.now) }
{
    match words {
        [] => None,
        names => Some(Form::Move { names }),
    }
}

fn stack_form<'a>(words: &'a [&'a [u8]]) -> Option<Form<'a>>
    ensures { option_map form_seen result ≡ stack_form (texts words.now) }
{
    match words {
        [worker] => Some(Form::Stack { worker }),
        _ => None,
    }
}
