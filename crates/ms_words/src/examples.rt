//! What lists of words ask for: laws about the definitions, computed by the check. The results are worked out by hand.
ghost use Rattle.std.specs.Prelude.{◌≡◌, ◌++◌, [], ◌∷◌, Ok, Err, Some, true, false, codes, decimal, replicate};
ghost use Rattle.ms_words.specs.declared.commands.Command.TheVariants.{Instrument, Run, Check, CheckSchedules, Explain, Corpus, Gen, Help, Version};
ghost use Rattle.ms_words.specs.declared.commands.WordsError.TheVariants.{UnknownCommand, UnknownOption, MissingValue, MissingFile, MissingOption, Extra, BadNumber, BadHex, Repeated, Excluded, OutOfRange};
ghost use Rattle.ms_words.specs.Usage.{synopsis, command_about, topic_line, option_line};
ghost use Rattle.ms_words.specs.Words.{command_of, defaults};
ghost use Rattle.ms_words.specs.declared.names.CommandName.TheVariants as name;
ghost use Rattle.ms_words.specs.declared.names.OptionName.TheVariants as option;
ghost use Rattle.ms_words.specs.declared.topics.Topic.TheVariants as topic;

/// Lists of words as they are met most.
pub fn usual_words()
    ensures no_file { command_of (codes "check" ∷ []) ≡ Err (MissingFile 1) }
    ensures leading_zero { command_of (codes "check" ∷ codes "--steps" ∷ codes "01" ∷ codes "f" ∷ []) ≡ Err (BadNumber 2) }
    ensures odd_digits { command_of (codes "check" ∷ codes "--fill" ∷ codes "a" ∷ codes "f" ∷ []) ≡ Err (BadHex 2) }
    ensures second_file { command_of (codes "check" ∷ codes "a" ∷ codes "b" ∷ []) ≡ Err (Extra 2) }
    ensures file_with_dashes { command_of (codes "run" ∷ codes "--fill=A5" ∷ codes "--" ∷ codes "--f" ∷ []) ≡ Ok (Run (codes "--f") defaults) }
    ensures option_twice { command_of (codes "run" ∷ codes "--steps" ∷ codes "5" ∷ codes "--steps" ∷ codes "6" ∷ codes "f" ∷ []) ≡ Err (Repeated 3) }
    ensures no_value { command_of (codes "run" ∷ codes "--input" ∷ []) ≡ Err (MissingValue 2) }
    ensures one_dash { command_of (codes "run" ∷ codes "-x" ∷ codes "f" ∷ []) ≡ Err (UnknownOption 1) }
    ensures no_report { command_of (codes "run" ∷ codes "--reports" ∷ codes "0" ∷ codes "f" ∷ []) ≡ Err (OutOfRange 2) }
    ensures no_count { command_of (codes "gen" ∷ codes "--seed" ∷ codes "7" ∷ []) ≡ Err (MissingOption 3) }
{}

/// Commands, and their options.
pub fn each_command()
    ensures none { command_of ([]) ≡ Err (UnknownCommand 0) }
    ensures empty { command_of ([] ∷ []) ≡ Err (UnknownCommand 0) }
    ensures unknown { command_of (codes "corpora" ∷ codes "f" ∷ codes "a" ∷ []) ≡ Err (UnknownCommand 0) }
    ensures longer { command_of (codes "runs" ∷ codes "f" ∷ []) ≡ Err (UnknownCommand 0) }
    ensures instrument { command_of (codes "instrument" ∷ codes "f" ∷ []) ≡ Ok (Instrument (codes "f")) }
    ensures no_options { command_of (codes "instrument" ∷ codes "--fill" ∷ codes "00" ∷ codes "f" ∷ []) ≡ Err (UnknownOption 1) }
    ensures all_options { command_of (codes "check" ∷ codes "--reports=3" ∷ codes "--input" ∷ codes "in" ∷ codes "--steps=0" ∷ codes "--fill" ∷ codes "00fF" ∷ codes "m" ∷ []) ≡ Ok (Check (codes "m") (record defaults { input = Some (codes "in"); fill = 0 ∷ 255 ∷ []; steps = 0; reports = 3 })) }
    ensures generates { command_of (codes "gen" ∷ codes "--functions=1000" ∷ codes "--run" ∷ codes "--seed" ∷ codes "18446744073709551615" ∷ []) ≡ Ok (Gen 18446744073709551615 1000 true) }
    ensures generates_quietly { command_of (codes "gen" ∷ codes "--seed=0" ∷ codes "--functions=1" ∷ codes "--" ∷ []) ≡ Ok (Gen 0 1 false) }
{}

/// A module and its inputs.
pub fn words_of_a_corpus()
    ensures one_input { command_of (codes "corpus" ∷ codes "f" ∷ codes "a" ∷ []) ≡ Ok (Corpus (codes "f") (codes "a" ∷ []) defaults 2) }
    ensures all_options { command_of (codes "corpus" ∷ codes "--workers=8" ∷ codes "--fill" ∷ codes "00fF" ∷ codes "--steps=5" ∷ codes "--reports" ∷ codes "3" ∷ codes "m" ∷ codes "a" ∷ codes "b" ∷ []) ≡ Ok (Corpus (codes "m") (codes "a" ∷ codes "b" ∷ []) (record defaults { fill = 0 ∷ 255 ∷ []; steps = 5; reports = 3 }) 8) }
    ensures dashed_input { command_of (codes "corpus" ∷ codes "f" ∷ codes "--workers=3" ∷ []) ≡ Ok (Corpus (codes "f") (codes "--workers=3" ∷ []) defaults 2) }
    ensures most_inputs { command_of (codes "corpus" ∷ codes "m" ∷ replicate 256 (codes "a")) ≡ Ok (Corpus (codes "m") (replicate 256 (codes "a")) defaults 2) }
    ensures too_many_inputs { command_of (codes "corpus" ∷ codes "m" ∷ replicate 257 (codes "a")) ≡ Err (Extra 258) }
    ensures no_input { command_of (codes "corpus" ∷ codes "f" ∷ []) ≡ Err (MissingFile 2) }
    ensures no_module { command_of (codes "corpus" ∷ []) ≡ Err (MissingFile 1) }
    ensures no_worker { command_of (codes "corpus" ∷ codes "--workers=0" ∷ codes "f" ∷ codes "a" ∷ []) ≡ Err (OutOfRange 1) }
    ensures nine_workers { command_of (codes "corpus" ∷ codes "--workers" ∷ codes "9" ∷ codes "f" ∷ codes "a" ∷ []) ≡ Err (OutOfRange 2) }
    ensures input_as_an_option { command_of (codes "corpus" ∷ codes "--input" ∷ codes "a" ∷ codes "f" ∷ codes "b" ∷ []) ≡ Err (UnknownOption 1) }
    ensures workers_of_run { command_of (codes "run" ∷ codes "--workers" ∷ codes "2" ∷ codes "f" ∷ []) ≡ Err (UnknownOption 1) }
{}

/// A report to explain, the first one.
pub fn words_of_an_explanation()
    ensures file { command_of (codes "explain" ∷ codes "f" ∷ []) ≡ Ok (Explain (codes "f") defaults) }
    ensures all_options { command_of (codes "explain" ∷ codes "--where" ∷ codes "--input" ∷ codes "in" ∷ codes "--steps=0" ∷ codes "--fill" ∷ codes "00fF" ∷ codes "m" ∷ []) ≡ Ok (Explain (codes "m") (record defaults { input = Some (codes "in"); fill = 0 ∷ 255 ∷ []; steps = 0; locations = true })) }
    ensures more_reports { command_of (codes "explain" ∷ codes "--reports" ∷ codes "2" ∷ codes "f" ∷ []) ≡ Err (UnknownOption 1) }
    ensures workers { command_of (codes "explain" ∷ codes "--workers=2" ∷ codes "f" ∷ []) ≡ Err (UnknownOption 1) }
    ensures no_file { command_of (codes "explain" ∷ []) ≡ Err (MissingFile 1) }
    ensures second_file { command_of (codes "explain" ∷ codes "f" ∷ codes "a" ∷ []) ≡ Err (Extra 2) }
    ensures shorter { command_of (codes "explai" ∷ codes "f" ∷ []) ≡ Err (UnknownCommand 0) }
{}

/// The option that asks where each site stands; it takes no value.
pub fn words_with_locations()
    ensures of_run { command_of (codes "run" ∷ codes "--where" ∷ codes "f" ∷ []) ≡ Ok (Run (codes "f") (record defaults { locations = true })) }
    ensures of_check { command_of (codes "check" ∷ codes "--where" ∷ codes "--steps" ∷ codes "5" ∷ codes "f" ∷ []) ≡ Ok (Check (codes "f") (record defaults { steps = 5; locations = true })) }
    ensures of_corpus { command_of (codes "corpus" ∷ codes "--workers=3" ∷ codes "--where" ∷ codes "f" ∷ codes "a" ∷ []) ≡ Ok (Corpus (codes "f") (codes "a" ∷ []) (record defaults { locations = true }) 3) }
    ensures not_given { command_of (codes "run" ∷ codes "f" ∷ []) ≡ Ok (Run (codes "f") (record defaults { locations = false })) }
    ensures a_file { command_of (codes "run" ∷ codes "--" ∷ codes "--where" ∷ []) ≡ Ok (Run (codes "--where") (record defaults { locations = false })) }
    ensures with_a_value { command_of (codes "check" ∷ codes "--where=yes" ∷ codes "f" ∷ []) ≡ Err (UnknownOption 1) }
    ensures twice { command_of (codes "check" ∷ codes "--where" ∷ codes "--where" ∷ codes "f" ∷ []) ≡ Err (Repeated 2) }
    ensures of_instrument { command_of (codes "instrument" ∷ codes "--where" ∷ codes "f" ∷ []) ≡ Err (UnknownOption 1) }
    ensures of_gen { command_of (codes "gen" ∷ codes "--where" ∷ []) ≡ Err (UnknownOption 1) }
{}

/// The option with the bytes that pick threads.
pub fn words_with_a_schedule()
    ensures of_run { command_of (codes "run" ∷ codes "--schedule" ∷ codes "0001fF" ∷ codes "f" ∷ []) ≡ Ok (Run (codes "f") (record defaults { schedule = 0 ∷ 1 ∷ 255 ∷ [] })) }
    ensures of_check { command_of (codes "check" ∷ codes "--schedule=01" ∷ codes "--fill" ∷ codes "00" ∷ codes "f" ∷ []) ≡ Ok (Check (codes "f") (record defaults { fill = 0 ∷ []; schedule = 1 ∷ [] })) }
    ensures not_given { command_of (codes "check" ∷ codes "f" ∷ []) ≡ Ok (Check (codes "f") (record defaults { schedule = 0 ∷ [] })) }
    ensures most_bytes { command_of (codes "run" ∷ codes "--schedule" ∷ replicate 4096 48 ∷ codes "f" ∷ []) ≡ Ok (Run (codes "f") (record defaults { schedule = replicate 2048 0 })) }
    ensures too_many_bytes { command_of (codes "run" ∷ codes "--schedule" ∷ replicate 4098 48 ∷ codes "f" ∷ []) ≡ Err (OutOfRange 2) }
    ensures empty { command_of (codes "run" ∷ codes "--schedule=" ∷ codes "f" ∷ []) ≡ Err (BadHex 1) }
    ensures odd_digits { command_of (codes "check" ∷ codes "--schedule" ∷ codes "012" ∷ codes "f" ∷ []) ≡ Err (BadHex 2) }
    ensures no_digits { command_of (codes "check" ∷ codes "--schedule" ∷ codes "0x" ∷ codes "f" ∷ []) ≡ Err (BadHex 2) }
    ensures twice { command_of (codes "check" ∷ codes "--schedule=00" ∷ codes "--schedule=01" ∷ codes "f" ∷ []) ≡ Err (Repeated 2) }
    ensures no_value { command_of (codes "run" ∷ codes "--schedule" ∷ []) ≡ Err (MissingValue 2) }
    ensures of_explain { command_of (codes "explain" ∷ codes "--schedule" ∷ codes "00" ∷ codes "f" ∷ []) ≡ Err (UnknownOption 1) }
    ensures of_corpus { command_of (codes "corpus" ∷ codes "--schedule=00" ∷ codes "f" ∷ codes "a" ∷ []) ≡ Err (UnknownOption 1) }
    ensures of_instrument { command_of (codes "instrument" ∷ codes "--schedule=00" ∷ codes "f" ∷ []) ≡ Err (UnknownOption 1) }
    ensures of_gen { command_of (codes "gen" ∷ codes "--schedule=00" ∷ []) ≡ Err (UnknownOption 1) }
{}

/// The option with the greatest number of schedules, and the number of workers beside it.
pub fn words_with_schedules()
    ensures of_check { command_of (codes "check" ∷ codes "--schedules" ∷ codes "20" ∷ codes "f" ∷ []) ≡ Ok (CheckSchedules (codes "f") defaults 20 2) }
    ensures workers { command_of (codes "check" ∷ codes "--workers=8" ∷ codes "--schedules=1000000" ∷ codes "f" ∷ []) ≡ Ok (CheckSchedules (codes "f") defaults 1000000 8) }
    ensures all_options { command_of (codes "check" ∷ codes "--where" ∷ codes "--schedules=1" ∷ codes "--reports=3" ∷ codes "--input" ∷ codes "in" ∷ codes "--steps=0" ∷ codes "--fill" ∷ codes "00fF" ∷ codes "--workers" ∷ codes "1" ∷ codes "m" ∷ [])
        ≡ Ok (CheckSchedules (codes "m") (record defaults { input = Some (codes "in"); fill = 0 ∷ 255 ∷ []; steps = 0; reports = 3; locations = true }) 1 1) }
    ensures not_given { command_of (codes "check" ∷ codes "f" ∷ []) ≡ Ok (Check (codes "f") defaults) }
    ensures a_file { command_of (codes "check" ∷ codes "--" ∷ codes "--schedules" ∷ []) ≡ Ok (Check (codes "--schedules") defaults) }
    ensures none { command_of (codes "check" ∷ codes "--schedules" ∷ codes "0" ∷ codes "f" ∷ []) ≡ Err (OutOfRange 2) }
    ensures too_many { command_of (codes "check" ∷ codes "--schedules=1000001" ∷ codes "f" ∷ []) ≡ Err (OutOfRange 1) }
    ensures no_number { command_of (codes "check" ∷ codes "--schedules=0a" ∷ codes "f" ∷ []) ≡ Err (BadNumber 1) }
    ensures leading_zero { command_of (codes "check" ∷ codes "--schedules" ∷ codes "05" ∷ codes "f" ∷ []) ≡ Err (BadNumber 2) }
    ensures empty { command_of (codes "check" ∷ codes "--schedules=" ∷ codes "f" ∷ []) ≡ Err (BadNumber 1) }
    ensures no_value { command_of (codes "check" ∷ codes "--schedules" ∷ []) ≡ Err (MissingValue 2) }
    ensures twice { command_of (codes "check" ∷ codes "--schedules=5" ∷ codes "--schedules" ∷ codes "6" ∷ codes "f" ∷ []) ≡ Err (Repeated 2) }
    ensures after_a_schedule { command_of (codes "check" ∷ codes "--schedule=00" ∷ codes "--schedules=5" ∷ codes "f" ∷ []) ≡ Err (Excluded 2) }
    ensures before_a_schedule { command_of (codes "check" ∷ codes "--schedules" ∷ codes "5" ∷ codes "--schedule" ∷ codes "00" ∷ codes "f" ∷ []) ≡ Err (Excluded 3) }
    ensures excluded_before_bad { command_of (codes "check" ∷ codes "--schedules=5" ∷ codes "--schedule=0" ∷ codes "f" ∷ []) ≡ Err (Excluded 2) }
    ensures repeated_before_excluded { command_of (codes "check" ∷ codes "--schedule=00" ∷ codes "--schedule=00" ∷ codes "--schedules=5" ∷ codes "f" ∷ []) ≡ Err (Repeated 2) }
    ensures workers_alone { command_of (codes "check" ∷ codes "--workers=2" ∷ codes "f" ∷ []) ≡ Err (MissingOption 3) }
    ensures workers_without_file { command_of (codes "check" ∷ codes "--workers" ∷ codes "2" ∷ []) ≡ Err (MissingOption 3) }
    ensures no_file { command_of (codes "check" ∷ codes "--workers=2" ∷ codes "--schedules=5" ∷ []) ≡ Err (MissingFile 3) }
    ensures nine_workers { command_of (codes "check" ∷ codes "--schedules=5" ∷ codes "--workers=9" ∷ codes "f" ∷ []) ≡ Err (OutOfRange 2) }
    ensures second_file { command_of (codes "check" ∷ codes "--schedules=5" ∷ codes "f" ∷ codes "g" ∷ []) ≡ Err (Extra 3) }
    ensures of_run { command_of (codes "run" ∷ codes "--schedules=5" ∷ codes "f" ∷ []) ≡ Err (UnknownOption 1) }
    ensures of_explain { command_of (codes "explain" ∷ codes "--schedules" ∷ codes "5" ∷ codes "f" ∷ []) ≡ Err (UnknownOption 1) }
    ensures of_corpus { command_of (codes "corpus" ∷ codes "--schedules=5" ∷ codes "f" ∷ codes "a" ∷ []) ≡ Err (UnknownOption 1) }
    ensures of_instrument { command_of (codes "instrument" ∷ codes "--schedules=5" ∷ codes "f" ∷ []) ≡ Err (UnknownOption 1) }
    ensures of_gen { command_of (codes "gen" ∷ codes "--schedules=5" ∷ []) ≡ Err (UnknownOption 1) }
{}

/// The option that asks for the calls at each report.
pub fn words_with_calls()
    ensures of_run { command_of (codes "run" ∷ codes "--calls" ∷ codes "f" ∷ []) ≡ Ok (Run (codes "f") (record defaults { calls = true })) }
    ensures of_check { command_of (codes "check" ∷ codes "--calls" ∷ codes "--where" ∷ codes "f" ∷ []) ≡ Ok (Check (codes "f") (record defaults { locations = true; calls = true })) }
    ensures of_schedules { command_of (codes "check" ∷ codes "--schedules=5" ∷ codes "--calls" ∷ codes "f" ∷ []) ≡ Ok (CheckSchedules (codes "f") (record defaults { calls = true }) 5 2) }
    ensures of_explain { command_of (codes "explain" ∷ codes "--calls" ∷ codes "f" ∷ []) ≡ Ok (Explain (codes "f") (record defaults { calls = true })) }
    ensures of_corpus { command_of (codes "corpus" ∷ codes "--calls" ∷ codes "f" ∷ codes "a" ∷ []) ≡ Ok (Corpus (codes "f") (codes "a" ∷ []) (record defaults { calls = true }) 2) }
    ensures not_given { command_of (codes "run" ∷ codes "--where" ∷ codes "f" ∷ []) ≡ Ok (Run (codes "f") (record defaults { locations = true; calls = false })) }
    ensures a_file { command_of (codes "run" ∷ codes "--" ∷ codes "--calls" ∷ []) ≡ Ok (Run (codes "--calls") defaults) }
    ensures with_a_value { command_of (codes "run" ∷ codes "--calls=1" ∷ codes "f" ∷ []) ≡ Err (UnknownOption 1) }
    ensures twice { command_of (codes "check" ∷ codes "--calls" ∷ codes "--calls" ∷ codes "f" ∷ []) ≡ Err (Repeated 2) }
    ensures of_instrument { command_of (codes "instrument" ∷ codes "--calls" ∷ codes "f" ∷ []) ≡ Err (UnknownOption 1) }
    ensures of_gen { command_of (codes "gen" ∷ codes "--calls" ∷ []) ≡ Err (UnknownOption 1) }
{}

/// The option that asks for each use once.
pub fn words_with_once()
    ensures of_run { command_of (codes "run" ∷ codes "--once" ∷ codes "f" ∷ []) ≡ Ok (Run (codes "f") (record defaults { once = true })) }
    ensures of_check { command_of (codes "check" ∷ codes "--once" ∷ codes "--reports=9" ∷ codes "f" ∷ []) ≡ Ok (Check (codes "f") (record defaults { reports = 9; once = true })) }
    ensures of_schedules { command_of (codes "check" ∷ codes "--schedules=5" ∷ codes "--once" ∷ codes "f" ∷ []) ≡ Ok (CheckSchedules (codes "f") (record defaults { once = true }) 5 2) }
    ensures of_corpus { command_of (codes "corpus" ∷ codes "--calls" ∷ codes "--once" ∷ codes "f" ∷ codes "a" ∷ []) ≡ Ok (Corpus (codes "f") (codes "a" ∷ []) (record defaults { calls = true; once = true }) 2) }
    ensures not_given { command_of (codes "run" ∷ codes "--calls" ∷ codes "f" ∷ []) ≡ Ok (Run (codes "f") (record defaults { calls = true; once = false })) }
    ensures a_file { command_of (codes "run" ∷ codes "--" ∷ codes "--once" ∷ []) ≡ Ok (Run (codes "--once") defaults) }
    ensures with_a_value { command_of (codes "run" ∷ codes "--once=1" ∷ codes "f" ∷ []) ≡ Err (UnknownOption 1) }
    ensures twice { command_of (codes "check" ∷ codes "--once" ∷ codes "--once" ∷ codes "f" ∷ []) ≡ Err (Repeated 2) }
    ensures of_explain { command_of (codes "explain" ∷ codes "--once" ∷ codes "f" ∷ []) ≡ Err (UnknownOption 1) }
    ensures of_instrument { command_of (codes "instrument" ∷ codes "--once" ∷ codes "f" ∷ []) ≡ Err (UnknownOption 1) }
    ensures of_gen { command_of (codes "gen" ∷ codes "--once" ∷ []) ≡ Err (UnknownOption 1) }
{}

/// Where the options end.
pub fn end_of_options()
    ensures one_dash_is_a_file { command_of (codes "run" ∷ codes "-" ∷ []) ≡ Ok (Run (codes "-") defaults) }
    ensures empty_file { command_of (codes "run" ∷ [] ∷ []) ≡ Ok (Run ([]) defaults) }
    ensures dashes_twice { command_of (codes "run" ∷ codes "--" ∷ codes "--" ∷ []) ≡ Ok (Run (codes "--") defaults) }
    ensures dashes_alone { command_of (codes "run" ∷ codes "--" ∷ []) ≡ Err (MissingFile 2) }
    ensures option_after_file { command_of (codes "run" ∷ codes "f" ∷ codes "--steps=5" ∷ []) ≡ Err (Extra 2) }
    ensures dashes_after_file { command_of (codes "run" ∷ codes "f" ∷ codes "--" ∷ []) ≡ Err (Extra 2) }
    ensures file_of_gen { command_of (codes "gen" ∷ codes "--seed=1" ∷ codes "f" ∷ []) ≡ Err (Extra 2) }
{}

/// Values of options.
pub fn values_of_options()
    ensures any_word { command_of (codes "run" ∷ codes "--input" ∷ codes "--" ∷ codes "f" ∷ []) ≡ Ok (Run (codes "f") (record defaults { input = Some (codes "--") })) }
    ensures an_option { command_of (codes "run" ∷ codes "--input" ∷ codes "--input" ∷ codes "f" ∷ []) ≡ Ok (Run (codes "f") (record defaults { input = Some (codes "--input") })) }
    ensures second_equals { command_of (codes "run" ∷ codes "--input=a=b" ∷ codes "f" ∷ []) ≡ Ok (Run (codes "f") (record defaults { input = Some (codes "a=b") })) }
    ensures empty_input { command_of (codes "run" ∷ codes "--input=" ∷ codes "f" ∷ []) ≡ Ok (Run (codes "f") (record defaults { input = Some [] })) }
    ensures empty_number { command_of (codes "run" ∷ codes "--steps=" ∷ codes "f" ∷ []) ≡ Err (BadNumber 1) }
    ensures empty_fill { command_of (codes "run" ∷ codes "--fill" ∷ [] ∷ codes "f" ∷ []) ≡ Err (BadHex 2) }
    ensures zero { command_of (codes "run" ∷ codes "--steps" ∷ codes "0" ∷ codes "f" ∷ []) ≡ Ok (Run (codes "f") (record defaults { steps = 0 })) }
    ensures zeros { command_of (codes "run" ∷ codes "--steps" ∷ codes "00" ∷ codes "f" ∷ []) ≡ Err (BadNumber 2) }
    ensures plus { command_of (codes "run" ∷ codes "--steps" ∷ codes "+1" ∷ codes "f" ∷ []) ≡ Err (BadNumber 2) }
    ensures most_steps { command_of (codes "run" ∷ codes "--steps" ∷ codes "1000000000" ∷ codes "f" ∷ []) ≡ Ok (Run (codes "f") (record defaults { steps = 1000000000 })) }
    ensures too_many_steps { command_of (codes "run" ∷ codes "--steps" ∷ codes "1000000001" ∷ codes "f" ∷ []) ≡ Err (OutOfRange 2) }
    ensures too_long { command_of (codes "gen" ∷ codes "--seed" ∷ codes "18446744073709551616" ∷ []) ≡ Err (OutOfRange 2) }
    ensures functions_zero { command_of (codes "gen" ∷ codes "--functions=0" ∷ []) ≡ Err (OutOfRange 1) }
{}

/// Which fault comes first.
pub fn order_of_faults()
    ensures unknown_before_missing { command_of (codes "run" ∷ codes "--speed" ∷ []) ≡ Err (UnknownOption 1) }
    ensures no_name { command_of (codes "run" ∷ codes "--=5" ∷ codes "f" ∷ []) ≡ Err (UnknownOption 1) }
    ensures three_dashes { command_of (codes "run" ∷ codes "---steps" ∷ codes "5" ∷ codes "f" ∷ []) ≡ Err (UnknownOption 1) }
    ensures value_of_none { command_of (codes "gen" ∷ codes "--run=x" ∷ []) ≡ Err (UnknownOption 1) }
    ensures value_of_none_again { command_of (codes "gen" ∷ codes "--run" ∷ codes "--run=x" ∷ []) ≡ Err (UnknownOption 2) }
    ensures none_twice { command_of (codes "gen" ∷ codes "--run" ∷ codes "--run" ∷ []) ≡ Err (Repeated 2) }
    ensures repeated_before_missing { command_of (codes "run" ∷ codes "--steps=1" ∷ codes "--steps" ∷ []) ≡ Err (Repeated 2) }
    ensures repeated_before_bad { command_of (codes "run" ∷ codes "--steps=1" ∷ codes "--steps=x" ∷ []) ≡ Err (Repeated 2) }
    ensures left_to_right { command_of (codes "run" ∷ codes "--fill=g" ∷ codes "--speed" ∷ []) ≡ Err (BadHex 1) }
    ensures prefix_of_a_name { command_of (codes "run" ∷ codes "--step" ∷ codes "5" ∷ codes "f" ∷ []) ≡ Err (UnknownOption 1) }
    ensures other_command_option { command_of (codes "run" ∷ codes "--seed" ∷ codes "5" ∷ codes "f" ∷ []) ≡ Err (UnknownOption 1) }
{}

/// Questions about the program itself, whatever words follow; as a later word none of these is one.
pub fn questions()
    ensures help { command_of (codes "help" ∷ []) ≡ Ok Help }
    ensures long_help { command_of (codes "--help" ∷ []) ≡ Ok Help }
    ensures short_help { command_of (codes "-h" ∷ []) ≡ Ok Help }
    ensures help_and_more { command_of (codes "help" ∷ codes "check" ∷ codes "--speed" ∷ []) ≡ Ok Help }
    ensures version { command_of (codes "version" ∷ []) ≡ Ok Version }
    ensures long_version { command_of (codes "--version" ∷ []) ≡ Ok Version }
    ensures short_version { command_of (codes "-V" ∷ codes "x" ∷ []) ≡ Ok Version }
    ensures other_case { command_of (codes "-v" ∷ []) ≡ Err (UnknownCommand 0) }
    ensures longer { command_of (codes "--helps" ∷ []) ≡ Err (UnknownCommand 0) }
    ensures value { command_of (codes "--help=run" ∷ []) ≡ Err (UnknownCommand 0) }
    ensures one_dash { command_of (codes "-help" ∷ []) ≡ Err (UnknownCommand 0) }
    ensures after_a_command { command_of (codes "run" ∷ codes "--help" ∷ []) ≡ Err (UnknownOption 1) }
    ensures short_after_a_command { command_of (codes "run" ∷ codes "-h" ∷ []) ≡ Err (UnknownOption 1) }
    ensures file { command_of (codes "run" ∷ codes "help" ∷ []) ≡ Ok (Run (codes "help") defaults) }
{}

/// The lines of commands in the usage.
pub fn lines_of_commands()
    ensures instrument { synopsis name.Instrument ≡ codes "  msan instrument FILE\n" }
    ensures run { synopsis name.Run ≡ codes "  msan run [--input FILE] [--fill HEX] [--steps N] [--reports N] [--schedule HEX] [--where] [--calls] [--once] FILE\n" }
    ensures check { synopsis name.Check ≡ codes "  msan check [--input FILE] [--fill HEX] [--steps N] [--reports N] [--schedule HEX] [--schedules N] [--workers N] [--where] [--calls] [--once] FILE\n" }
    ensures explain { synopsis name.Explain ≡ codes "  msan explain [--input FILE] [--fill HEX] [--steps N] [--where] [--calls] FILE\n" }
    ensures corpus { synopsis name.Corpus ≡ codes "  msan corpus [--workers N] [--fill HEX] [--steps N] [--reports N] [--where] [--calls] [--once] FILE INPUT...\n" }
    ensures inputs { command_about name.Corpus ≡ codes "      check the module in FILE with each INPUT as its standard input: " ++ decimal 1 ++ codes " to " ++ decimal 256 ++ codes " inputs\n" }
    ensures generates { synopsis name.Gen ≡ codes "  msan gen --seed N --functions N [--run]\n" }
    ensures help { topic_line topic.Help ≡ codes "  msan help, --help, -h: print this text\n" }
    ensures version { topic_line topic.Version ≡ codes "  msan version, --version, -V: print the version\n" }
{}

/// The lines of options in the usage.
pub fn lines_of_options()
    ensures input { option_line option.Input ≡ codes "  --input FILE    file with the bytes of standard input, which is empty without it\n" }
    ensures fill { option_line option.Fill ≡ codes "  --fill HEX      bytes of uninitialised memory, two digits each: 1 to " ++ decimal 2048 ++ codes " bytes, default a5\n" }
    ensures steps { option_line option.Steps ≡ codes "  --steps N       greatest number of steps of a run: " ++ decimal 0 ++ codes " to " ++ decimal 1000000000 ++ codes ", default 10000000\n" }
    ensures reports { option_line option.Reports ≡ codes "  --reports N     number of reports at which a run ends: " ++ decimal 1 ++ codes " to " ++ decimal 1000 ++ codes ", default 1\n" }
    ensures schedule { option_line option.Schedule ≡ codes "  --schedule HEX  bytes that pick the threads that go on, two digits each: 1 to " ++ decimal 2048 ++ codes " bytes, default 00\n" }
    ensures schedules { option_line option.Schedules ≡ codes "  --schedules N   greatest number of schedules that are tried, one run each: " ++ decimal 1 ++ codes " to " ++ decimal 1000000 ++ codes "\n" }
    ensures workers { option_line option.Workers ≡ codes "  --workers N     inputs or schedules that are run at once: " ++ decimal 1 ++ codes " to " ++ decimal 8 ++ codes ", default 2\n" }
    ensures seed { option_line option.Seed ≡ codes "  --seed N        number that the module is made from: " ++ decimal 0 ++ codes " to " ++ decimal 18446744073709551615 ++ codes "\n" }
    ensures functions { option_line option.Functions ≡ codes "  --functions N   number of functions beside main: " ++ decimal 1 ++ codes " to " ++ decimal 1000 ++ codes "\n" }
    ensures runs { option_line option.Run ≡ codes "  --run           check the module instead of writing it\n" }
    ensures calls { option_line option.Calls ≡ codes "  --calls         below each report and trap, print the calls that stand there, the innermost first\n" }
    ensures once { option_line option.Once ≡ codes "  --once          neither report nor count a use of the same site, kind and part as one before it\n" }
    ensures locations { option_line option.Where ≡ codes "  --where         below each line that names a site, print where it stands in FILE and in the source\n" }
{}
