//! What is proved of the rules themselves.
ghost use Rattle.rules.specs.Claims.{LevelsAreLow, LevelsByContexts};
ghost use Rattle.rules.specs.Stretches.{
  ColumnsAlongTheOrder,
  ColumnsByStretches,
  ItemsStay,
  LowestOdd,
  ReversalLaws,
  TwoReversals,
  WidthsAreSums,
};
ghost use Rattle.rules.specs.Worked.{Worked};

/// The worked paragraphs have the levels that are expected of them.
pub fn worked_cases_stand()
    ensures { Worked }
{}

/// In every paragraph and at every place the contexts give the rules' level.
pub fn contexts_give_the_levels()
    ensures { LevelsByContexts }
{}

/// In every paragraph each item has a level, and none is above 2.
pub fn levels_are_low()
    ensures { LevelsAreLow }
{}

/// What the visual order is: reversal at one level, the same items, the standard's lowest odd level, two reversals for levels up to 2.
pub fn order_laws_stand()
    ensures reversal { ReversalLaws }
    ensures items { ItemsStay }
    ensures odd { LowestOdd }
    ensures two { TwoReversals }
{}

/// The column of an item: by the stretches of levels around it, and along the visual order.
pub fn column_laws_stand()
    ensures stretches { ColumnsByStretches }
    ensures along { ColumnsAlongTheOrder }
    ensures widths { WidthsAreSums }
{}
