//! What the options' rules are, each written out as a law. Nothing here runs.
ghost use Rattle.std.specs.Prelude.{◌≡◌};
ghost use Rattle.job_words.specs.Options.{rule_of};
ghost use Rattle.job_words.specs.declared.option.Setting.TheVariants.{Workers, Nodes, Colours};
ghost use Rattle.job_words.specs.declared.option.Setting.TheVariants.{Moves, Seed, Orders};
ghost use Rattle.job_words.specs.declared.option.Scope.TheVariants.{Every, Searching, Drilling};

/// The ranges of the options, the number of each where none is given, and the commands that they
/// may stand with.
pub fn rules_of_the_options()
    ensures workers { rule_of Workers ≡ record {
      setting = Workers;
      least = 1;
      greatest = 64;
      default = 1;
      scope = Searching;
    } }
    ensures nodes { rule_of Nodes ≡ record {
      setting = Nodes;
      least = 0;
      greatest = 1000000000;
      default = 20000;
      scope = Searching;
    } }
    ensures colours { rule_of Colours ≡ record {
      setting = Colours;
      least = 1;
      greatest = 8;
      default = 2;
      scope = Every;
    } }
    ensures moves { rule_of Moves ≡ record {
      setting = Moves;
      least = 0;
      greatest = 1000000;
      default = 1000;
      scope = Searching;
    } }
    ensures seed { rule_of Seed ≡ record {
      setting = Seed;
      least = 0;
      greatest = 4294967295;
      default = 1;
      scope = Drilling;
    } }
    ensures orders { rule_of Orders ≡ record {
      setting = Orders;
      least = 0;
      greatest = 1024;
      default = 40;
      scope = Drilling;
    } }
{}
