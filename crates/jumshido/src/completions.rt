// What shells are to read to complete the words of this program.
use crate::table::commands;
use dsr_ir::NoMemory;
use dsr_wording::Text;
use std::alloc::Global;

const BASH: &str = "\
# Completions of jumshido for bash.
_jumshido() {
    local commands='";

const BASH_END: &str = "'
    local word=${COMP_WORDS[COMP_CWORD]}
    if [ \"$COMP_CWORD\" -eq 1 ]; then
        mapfile -t COMPREPLY < <(compgen -W \"$commands --help --json --version\" -- \"$word\")
    elif [ \"${COMP_WORDS[1]}\" = help ]; then
        mapfile -t COMPREPLY < <(compgen -W \"$commands\" -- \"$word\")
    elif [ \"${COMP_WORDS[1]}\" = completions ]; then
        mapfile -t COMPREPLY < <(compgen -W 'bash fish zsh' -- \"$word\")
    elif [ \"${word:0:1}\" = - ]; then
        mapfile -t COMPREPLY < <(compgen -W '--help --json' -- \"$word\")
    else
        mapfile -t COMPREPLY < <(compgen -f -- \"$word\")
    fi
}
complete -o filenames -F _jumshido jumshido
";

const ZSH: &str = "\
#compdef jumshido
# Completions of jumshido for zsh.
_jumshido() {
    local -a commands shells
    commands=(
";

const ZSH_END: &str = "    )
    shells=(bash fish zsh)
    if (( CURRENT == 2 )); then
        _describe command commands
    elif [[ ${words[2]} == help ]]; then
        _describe command commands
    elif [[ ${words[2]} == completions ]]; then
        _describe shell shells
    else
        _files
    fi
}
_jumshido \"$@\"
";

const FISH: &str = "\
# Completions of jumshido for fish.
function __jumshido_wants_command
    not __fish_seen_subcommand_from ";

const FISH_END: &str = "\
complete -c jumshido -n '__fish_seen_subcommand_from completions' -f -a 'bash fish zsh'
complete -c jumshido -l json -d 'Answer with one JSON document'
complete -c jumshido -s h -l help -d 'Print help'
complete -c jumshido -s V -l version -d 'Print version'
";

const HELP: &str = "Print the help of a command";

// Appends the names of all commands.
fn push_names(text: &mut Text) {
    for entry in commands() {
        text.push(entry.name);
        text.push(" ");
    }
    text.push("help");
}

fn bash(text: &mut Text) {
    text.push(BASH);
    push_names(text);
    text.push(BASH_END);
}

// Appends a command as zsh describes it.
fn push_zsh(text: &mut Text, name: &str, about: &str) {
    for piece in ["        '", name, ":", about, "'\n"] {
        text.push(piece);
    }
}

fn zsh(text: &mut Text) {
    text.push(ZSH);
    for entry in commands() {
        push_zsh(text, entry.name, entry.about);
    }
    push_zsh(text, "help", HELP);
    text.push(ZSH_END);
}

// Appends a command as fish describes it.
fn push_fish(text: &mut Text, name: &str, about: &str) {
    let asked = "complete -c jumshido -n __jumshido_wants_command -f -a ";
    for piece in [asked, name, " -d '", about, "'\n"] {
        text.push(piece);
    }
}

fn fish(text: &mut Text) {
    text.push(FISH);
    push_names(text);
    text.push("\nend\n");
    for entry in commands() {
        push_fish(text, entry.name, entry.about);
    }
    push_fish(text, "help", HELP);
    text.push(FISH_END);
}

/// What a shell is to read; nothing where it is another one.
pub fn completions_of(alloc: Global, shell: &str) -> Result<String, NoMemory> {
    let mut text = Text::new(alloc);
    match shell {
        "bash" => bash(&mut text),
        "zsh" => zsh(&mut text),
        "fish" => fish(&mut text),
        _ => {}
    }
    text.whole()
}
