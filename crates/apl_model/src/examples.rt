//! Worked examples of the definitions. Each function does nothing: its contract is a row of examples.
ghost use Rattle.apl_model.specs.Examples.{TokensOfNames, TokensOfNumbers, TokensOfTexts, TokensOfComments, TokensOfOtherSpellings, TokensOfGlyphs, TokensOfBlanks, TokensOfNothing, TokensOfHeader, TokensOfCommand, SpellingOfNothing, SpellingOfBranch, SpellingOfDyadic, SpellingOfMonadic, SpellingOfAxis, SpellingOfCompress, SpellingOfReduction, SpellingOfOuter, SpellingOfInner, SpellingOfSubscript, SpellingOfAssignment, SpellingOfIndexedAssignment, SpellingOfOutput, SpellingOfParenthesis, SpellingOfCalls, RefusalOfLength, RefusalOfBytes, RefusalOfLongLine, RefusalOfCharacter, RefusalOfPoint, RefusalOfOpenText, RefusalByPhase, RefusalOfFourNames, RefusalOfDoubleName, RefusalOfOpenDefinition, RefusalOfFunctionAssigned, RefusalOfDepth, RefusalOfOpenParenthesis, RefusalOfMissingArgument, RefusalOfLoneBracket, RefusalOfTwoAxes, RefusalOfEraseAlone, RefusalOfOriginTwo, RefusalOfOriginAlone};

/// The tokens of ten lines.
pub fn tokens_of_ten_lines()
    ensures names { TokensOfNames }
    ensures numbers { TokensOfNumbers }
    ensures texts { TokensOfTexts }
    ensures comments { TokensOfComments }
    ensures other_spellings { TokensOfOtherSpellings }
    ensures glyphs { TokensOfGlyphs }
    ensures blanks { TokensOfBlanks }
    ensures nothing { TokensOfNothing }
    ensures header { TokensOfHeader }
    ensures command { TokensOfCommand }
{}

/// The trees of fifteen lines, one for each form of a statement.
pub fn trees_of_fifteen_lines()
    ensures nothing { SpellingOfNothing }
    ensures branch { SpellingOfBranch }
    ensures dyadic { SpellingOfDyadic }
    ensures monadic { SpellingOfMonadic }
    ensures axis { SpellingOfAxis }
    ensures compress { SpellingOfCompress }
    ensures reduction { SpellingOfReduction }
    ensures outer { SpellingOfOuter }
    ensures inner { SpellingOfInner }
    ensures subscript { SpellingOfSubscript }
    ensures assignment { SpellingOfAssignment }
    ensures indexed_assignment { SpellingOfIndexedAssignment }
    ensures output { SpellingOfOutput }
    ensures parenthesis { SpellingOfParenthesis }
    ensures calls { SpellingOfCalls }
{}

/// The refusals of seven scripts for their bytes and characters.
pub fn refusals_of_bytes_and_characters()
    ensures length { RefusalOfLength }
    ensures bytes { RefusalOfBytes }
    ensures long_line { RefusalOfLongLine }
    ensures character { RefusalOfCharacter }
    ensures point { RefusalOfPoint }
    ensures open_text { RefusalOfOpenText }
    ensures by_phase { RefusalByPhase }
{}

/// The refusals of four scripts for their definitions and names.
pub fn refusals_of_definitions()
    ensures four_names { RefusalOfFourNames }
    ensures double_name { RefusalOfDoubleName }
    ensures open_definition { RefusalOfOpenDefinition }
    ensures function_assigned { RefusalOfFunctionAssigned }
{}

/// The refusals of eight lines for their depth and their grammar.
pub fn refusals_of_lines()
    ensures depth { RefusalOfDepth }
    ensures open_parenthesis { RefusalOfOpenParenthesis }
    ensures missing_argument { RefusalOfMissingArgument }
    ensures lone_bracket { RefusalOfLoneBracket }
    ensures two_axes { RefusalOfTwoAxes }
    ensures erase_alone { RefusalOfEraseAlone }
    ensures origin_two { RefusalOfOriginTwo }
    ensures origin_alone { RefusalOfOriginAlone }
{}
