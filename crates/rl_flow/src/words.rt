ghost use Rattle.std.specs.Prelude.{◌≡◌, ◌≤◌, ◌-◌, true, length, take, IfSome};
ghost use Rattle.std.specs.List.{list_all};
ghost use Rattle.std.specs.Option.{option_map};
ghost use Rattle.net_model.specs.Early.{IsAtMost};
ghost use Rattle.rl_flow.specs.Words.{is_file_word, number_word, time_word, times_of, is_letter, is_name_byte, is_name_word, names_order, order_word, texts_of};
ghost use Rattle.rl_flow.specs.Task.{alone, eval_task, tabulate_task, timed_task, sim_task, task_of, check_command, budget_of, compare_command, big_command, of_one_file, command_of};
ghost use Rattle.rl_flow.specs.Asked.{limits};
ghost use Rattle.rl_flow.specs.Request.{task, IsSmall};

use crate::request::{Command, Request};
use crate::times::Times;
use rl_time::{Time, read_time};

fn is_file_word(word: &str) -> bool
    ensures { result ≡ is_file_word word.now }
{
    let bytes = word.as_bytes();
    1 <= bytes.len() && bytes.len() <= 4096 && bytes[0] != b'-'
}

/// The number that a word writes without a leading zero, where it is at most this.
fn number_word(word: &str, most: u64) -> Option<u64>
    ensures number { result ≡ number_word most word.now }
    ensures small { IfSome result (λ n. n ≤ most) }
{
    match read_time(word.as_bytes())? {
        Time::At(number) => { if number <= most { Some(number) } else { None } }
        Time::Never => None,
    }
}

/// The time that a word writes: `never`, or at most 1,000,000,000,000 cycles.
fn time_word(word: &str) -> Option<Time>
    ensures time { result ≡ time_word word.now }
    ensures early { IfSome result (IsAtMost 1000000000000) }
{
    match read_time(word.as_bytes())? {
        Time::At(number) => {
            if number <= 1_000_000_000_000 {
                Some(Time::At(number))
            } else {
                None
            }
        }
        Time::Never => Some(Time::Never),
    }
}

/// The times that 1 to 64 words write, in order.
fn read_times(words: &[String]) -> Option<Times>
    ensures { result ≡ times_of (texts_of words.now) }
{
    if words.is_empty() || words.len() > 64 {
        return None;
    }
    let mut times = Times::new();
    for word in words {
        times.push(time_word(word.as_str())?);
    }
    Some(times)
}

fn is_letter(byte: u8) -> bool
    ensures { result ≡ is_letter byte }
{
    matches!(byte, b'a'..=b'z' | b'A'..=b'Z')
}

fn is_name_byte(byte: u8) -> bool
    ensures { result ≡ is_name_byte byte }
{
    is_letter(byte) || matches!(byte, b'0'..=b'9' | b'_')
}

fn are_name_bytes(bytes: &[u8]) -> bool
    ensures { result ≡ list_all is_name_byte bytes.now }
{
    bytes.iter().all(|byte| is_name_byte(*byte))
}

/// Whether a word may name an output.
fn is_name_word(word: &str) -> bool
    ensures { result ≡ is_name_word word.now }
{
    let bytes = word.as_bytes();
    1 <= bytes.len() && bytes.len() <= 32 && is_letter(bytes[0]) && are_name_bytes(bytes)
}

/// The request, where no words are left.
fn alone<'a>(request: Request<'a>, words: &[String]) -> Option<Request<'a>>
    requires small { IsSmall request }
    ensures task { option_map task result ≡ alone (task request.entry) (texts_of words.now) }
    ensures small { IfSome result IsSmall }
{
    if words.is_empty() {
        Some(request)
    } else {
        None
    }
}

/// The request of the words `TIME..`.
fn eval_request(words: &[String]) -> Option<Request<'_>>
    ensures task { option_map task result ≡ eval_task (texts_of words.now) }
    ensures small { IfSome result IsSmall }
{
    Some(Request::Eval(read_times(words)?))
}

/// The request of the words `NAME WINDOW`.
fn tabulate_request(words: &[String]) -> Option<Request<'_>>
    ensures task { option_map task result ≡ tabulate_task (texts_of words.now) }
    ensures small { IfSome result IsSmall }
{
    let [name, window] = words else {
        return None;
    };
    if !is_name_word(name.as_str()) {
        return None;
    }
    let window = number_word(window.as_str(), 1_000_000)?;
    Some(Request::Tabulate(name.as_str(), window as u32))
}

/// Whether the last two words are `--order` and another.
fn names_order(words: &[String]) -> bool
    ensures { result ≡ names_order (texts_of words.now) }
{
    let count = words.len();
    count >= 2 && words[count - 2].as_str() == "--order"
}

/// The times that the words before `--order N` write.
fn times_before(words: &[String]) -> Option<Times>
    requires { names_order (texts_of words.now) ≡ true }
    ensures { result ≡ times_of (take (length words.now - 2) (texts_of words.now)) }
{
    read_times(&words[..words.len() - 2])
}

/// The number of an order that the last word writes.
fn order_word(words: &[String]) -> Option<u64>
    requires { names_order (texts_of words.now) ≡ true }
    ensures { result ≡ order_word (texts_of words.now) }
{
    number_word(words[words.len() - 1].as_str(), 1_000_000_000)
}

/// The request of the words `TIME..` or `TIME.. --order N`, for so many cycles.
fn timed_request(cycles: u32, words: &[String]) -> Option<Request<'_>>
    requires some_cycles { 1 ≤ cycles }
    requires few_cycles { cycles ≤ 100000 }
    ensures task { option_map task result ≡ timed_task cycles (texts_of words.now) }
    ensures small { IfSome result IsSmall }
{
    if !names_order(words) {
        return Some(Request::Sim(cycles, read_times(words)?));
    }
    let times = times_before(words)?;
    let order = order_word(words)?;
    Some(Request::SimInOrder(cycles, times, order))
}

/// The request of the words `CYCLES TIME.. [--order N]`.
fn sim_request(words: &[String]) -> Option<Request<'_>>
    ensures task { option_map task result ≡ sim_task (texts_of words.now) }
    ensures small { IfSome result IsSmall }
{
    let [cycles, words @ ..] = words else {
        return None;
    };
    let cycles = number_word(cycles.as_str(), 100_000)?;
    if cycles == 0 {
        return None;
    }
    timed_request(cycles as u32, words)
}

/// The request of the first word of a command with one file, and of the words after the file.
fn request_of<'a>(command: &str, words: &'a [String]) -> Option<Request<'a>>
    ensures task { option_map task result ≡ task_of command.now (texts_of words.now) }
    ensures small { IfSome result IsSmall }
{
    if command == "compile" {
        return alone(Request::Compile, words);
    }
    if command == "eval" {
        return eval_request(words);
    }
    if command == "synth" {
        return alone(Request::Synth, words);
    }
    if command == "simplify" {
        return alone(Request::Simplify, words);
    }
    if command == "tabulate" {
        return tabulate_request(words);
    }
    if command == "sim" {
        return sim_request(words);
    }
    None
}

/// Parses the words `FILE FILE FILE` of the command `check`.
#[tactic(auto, unfolding(crate::specs::Task::check_command))]
fn check_command(words: &[String]) -> Option<Command<'_>>
    ensures command { option_map (λ c. record { files = texts_of c.files.now; task = task c.request }) result
        ≡ check_command (texts_of words.now) }
    ensures small { IfSome result (λ c. IsSmall c.request) }
    ensures each { IfSome result (λ c. length (limits (task c.request)) ≡ length c.files.now) }
    ensures few { IfSome result (λ c. length c.files.now ≤ 3) }
{
    let [first, second, trees] = words else {
        return None;
    };
    if is_file_word(first.as_str())
        && is_file_word(second.as_str())
        && is_file_word(trees.as_str())
    {
        Some(Command {
            files: words,
            request: Request::Check,
        })
    } else {
        None
    }
}

/// The most items of an output's tree: the number of the words `--nodes N`, or 100,000 where no words are left.
fn budget_of(words: &[String]) -> Option<u32>
    ensures budget { result ≡ budget_of (texts_of words.now) }
    ensures some { IfSome result (λ budget. 1 ≤ budget) }
    ensures small { IfSome result (λ budget. budget ≤ 1000000) }
{
    match words {
        [] => Some(100_000),
        [flag, number] if flag.as_str() == "--nodes" => {
            let number = number_word(number.as_str(), 1_000_000)?;
            if number == 0 {
                return None;
            }
            Some(number as u32)
        }
        _ => None,
    }
}

/// Parses the words `FILE FILE [--nodes N]` of the command `compare`.
#[tactic(auto, unfolding(crate::specs::Task::compare_command))]
fn compare_command(words: &[String]) -> Option<Command<'_>>
    ensures command { option_map (λ c. record { files = texts_of c.files.now; task = task c.request }) result
        ≡ compare_command (texts_of words.now) }
    ensures small { IfSome result (λ c. IsSmall c.request) }
    ensures each { IfSome result (λ c. length (limits (task c.request)) ≡ length c.files.now) }
    ensures few { IfSome result (λ c. length c.files.now ≤ 3) }
{
    let [first, second, rest @ ..] = words else {
        return None;
    };
    if !is_file_word(first.as_str()) || !is_file_word(second.as_str()) {
        return None;
    }
    let budget = budget_of(rest)?;
    Some(Command {
        files: &words[..2],
        request: Request::Compare(budget),
    })
}

/// Parses the word `N` of the command `big`.
#[tactic(auto, unfolding(crate::specs::Task::big_command))]
fn big_command(words: &[String]) -> Option<Command<'_>>
    ensures command { option_map (λ c. record { files = texts_of c.files.now; task = task c.request }) result
        ≡ big_command (texts_of words.now) }
    ensures small { IfSome result (λ c. IsSmall c.request) }
    ensures each { IfSome result (λ c. length (limits (task c.request)) ≡ length c.files.now) }
    ensures few { IfSome result (λ c. length c.files.now ≤ 3) }
{
    let [number] = words else {
        return None;
    };
    let number = number_word(number.as_str(), 16_384)?;
    if number == 0 {
        return None;
    }
    Some(Command {
        files: &words[..0],
        request: Request::Big(number as u32),
    })
}

/// Parses the words after the first one of a command with one file.
#[tactic(auto, unfolding(crate::specs::Task::of_one_file))]
fn of_one_file<'a>(command: &str, words: &'a [String]) -> Option<Command<'a>>
    ensures command { option_map (λ c. record { files = texts_of c.files.now; task = task c.request }) result
        ≡ of_one_file command.now (texts_of words.now) }
    ensures small { IfSome result (λ c. IsSmall c.request) }
    ensures each { IfSome result (λ c. length (limits (task c.request)) ≡ length c.files.now) }
    ensures few { IfSome result (λ c. length c.files.now ≤ 3) }
{
    let [file, rest @ ..] = words else {
        return None;
    };
    if !is_file_word(file.as_str()) {
        return None;
    }
    let request = request_of(command, rest)?;
    Some(Command {
        files: &words[..1],
        request,
    })
}

/// Parses the words of a command line. `None` for words that are no command.
#[tactic(auto, unfolding(crate::specs::Task::command_of))]
pub fn parse(words: &[String]) -> Option<Command<'_>>
    ensures command { option_map (λ c. record { files = texts_of c.files.now; task = task c.request }) result
        ≡ command_of (texts_of words.now) }
    ensures small { IfSome result (λ c. IsSmall c.request) }
    ensures each { IfSome result (λ c. length (limits (task c.request)) ≡ length c.files.now) }
    ensures few { IfSome result (λ c. length c.files.now ≤ 3) }
{
    let [command, rest @ ..] = words else {
        return None;
    };
    if command.as_str() == "check" {
        check_command(rest)
    } else if command.as_str() == "compare" {
        compare_command(rest)
    } else if command.as_str() == "big" {
        big_command(rest)
    } else {
        of_one_file(command.as_str(), rest)
    }
}
