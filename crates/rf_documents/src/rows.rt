//! Small documents that are written down.

/// Small documents in postfix form, one a line, each of at most six choices one after another.
pub const SMALL_DOCUMENTS: &str = "a
empty
abcdefgh
line
hard
a line + b +
a b |
a bb |
bb a |
a a |
a empty |
empty a |
a line |
line a |
line line |
abcdef abcdefgh |
abcdefgh ab |
a bb | c ddd | +
a bb | same +
a bb | same + same +
a bb ccc | |
a bb | ccc |
a line | bb line | |
a line | bb line | | same +
abc line + de | f +
abc line + de + flat same |
abc line + de + same flat |
abc line + de + same flat swap |
abc line + de line + f + + same flat swap |
abc line + de + same flat swap | x +
abc line + de + same flat swap | same +
abc line + de + same flat swap | same + nest
abc line + de + same flat swap | same + align
x abc line + de + same flat swap | nest +
x abc line + de + same flat swap | align +
x abc line + de + same flat swap | reset + nest
xx line y + nest + z +
xx line y + far +
xx line y + far + same flat swap |
xx line y + far + a |
a line b + far | c +
xx line y + reset align +
xx line y + align reset +
hard flat a |
a hard flat |
hard flat a | b +
hard flat a | same + bb |
hard flat hard flat a | |
hard a | flat b |
hard line + a | flat line +
hard a | same flat | b +
a charge bb |
a free bb |
a charge line |
line charge a charge |
abcdefgh charge abc line + charge |
abc line + de charge + same flat swap | charge
a charge bb | c charge ddd | +
wide line c + align +
wide a |
wide line + b + same flat swap | align
abcdefghij line + x |
abcdefghij line + x | y z | +
x y | abcdefghij + z ww | +
x y | abcdefghij line + + z ww | +
x line | abcdefghijklm + z line | +
x line | abcdefghijklm line + + z line | +
abcdefghij x | abcdefghij line | +
hard flat abcdefghijklm | x y | +
abcdefghijklm hard flat | x line | +
abcdefghijklm charge x line | +
abcdefghijklm x line | + nest
abcdefghijklm x line y + | + align
line abcdefghijklm + x line y + | + nest align
abcd line x + align + abcdefgh |
abcd line x + nest + line abcdefgh + nest |
line a + line a + nest | line a + nest nest |
aaaa line + aaa line + b + | c line |  +
abc line | de line | + fgh line | +
abc line | de line | fgh line | + +
a line + bb line + ccc line + dddd + + + same flat swap |
a line + bb | line + ccc | line + dddd | same flat swap |
(f line a + line b + align + same flat swap | ) +
(f line a + nest line b + nest + + same flat swap | ) + align
aaaa bbb | line cc + d | + eeee line f + | + nest
empty line | empty line | + empty +
empty empty | empty +
empty align line + nest a |
a line nest + b + charge same flat swap | reset
abc line | nest de line | align + reset
abc line | nest same + align same + flat x |
abcdefgh line + aaaa b charge | + nest
xx abcdefgh line + aaaa b charge | + align +
xx abcdefgh line + aaaa b charge | + far +
xx abcdefgh line + aaaa b charge | + nest align +
xx abcdefgh line + aaaa b charge | + reset align +
xx abcdefgh line + aaaa b charge | + charge align +
xx abcdefgh line + aaaa b charge | + abcdefgh | align +
xx hard flat abcdefgh line + aaaa b charge | + | align +
xx abcdefgh line aaaa b charge | + + align +
a one bb |
bb a one |
a one bb free |
a one bb one |
a one line | bb + c free |
line one abcd | e one + same flat |
abc line one + de | same flat swap | f + one
xx aaaa b one | c one | align + dd +
a free bb free | c one | free one";
