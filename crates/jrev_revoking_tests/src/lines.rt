//! Lines of methods.

pub const MAKES_LOCK: &str = "new java/lang/Object
dup
invokespecial java/lang/Object <init> ()V
putstatic Main lock Ljava/lang/Object;
";

/// Makes the objects of both other fields.
pub const MAKES_A_AND_B: &str = "new java/lang/Object
dup
invokespecial java/lang/Object <init> ()V
putstatic Main a Ljava/lang/Object;
new java/lang/Object
dup
invokespecial java/lang/Object <init> ()V
putstatic Main b Ljava/lang/Object;
";

pub const ENTERS_LOCK: &str = "getstatic Main lock Ljava/lang/Object;
monitorenter
";

pub const LEAVES_LOCK: &str = "getstatic Main lock Ljava/lang/Object;
monitorexit
";

pub const ENTERS_A: &str = "getstatic Main a Ljava/lang/Object;
monitorenter
";

pub const LEAVES_A: &str = "getstatic Main a Ljava/lang/Object;
monitorexit
";

pub const ENTERS_B: &str = "getstatic Main b Ljava/lang/Object;
monitorenter
";

pub const LEAVES_B: &str = "getstatic Main b Ljava/lang/Object;
monitorexit
";

pub const WAITS: &str = "getstatic Main lock Ljava/lang/Object;
invokevirtual java/lang/Object wait ()V
";

pub const NOTIFIES: &str = "getstatic Main lock Ljava/lang/Object;
invokevirtual java/lang/Object notify ()V
";

pub const X_IS_1: &str = "iconst_1
putstatic Main x I
";

pub const X_IS_5: &str = "iconst_5
putstatic Main x I
";

pub const X_IS_6: &str = "bipush 6
putstatic Main x I
";

pub const X_IS_9: &str = "bipush 9
putstatic Main x I
";

pub const X_IS_11: &str = "bipush 11
putstatic Main x I
";

pub const Y_IS_1: &str = "iconst_1
putstatic Main y I
";

pub const Y_IS_2: &str = "iconst_2
putstatic Main y I
";

pub const Y_IS_6: &str = "bipush 6
putstatic Main y I
";

pub const Y_IS_12: &str = "bipush 12
putstatic Main y I
";

pub const V_IS_MINUS_1: &str = "ldc2_w -1
putstatic Main v J
";

pub const PRINTS_X: &str = "getstatic java/lang/System out Ljava/io/PrintStream;
getstatic Main x I
invokevirtual java/io/PrintStream println (I)V
";

pub const PRINTS_Y: &str = "getstatic java/lang/System out Ljava/io/PrintStream;
getstatic Main y I
invokevirtual java/io/PrintStream println (I)V
";

pub const PRINTS_V: &str = "getstatic java/lang/System out Ljava/io/PrintStream;
getstatic Main v J
invokevirtual java/io/PrintStream println (J)V
";

pub const PRINTS_1: &str = "getstatic java/lang/System out Ljava/io/PrintStream;
iconst_1
invokevirtual java/io/PrintStream println (I)V
";

pub const PRINTS_2: &str = "getstatic java/lang/System out Ljava/io/PrintStream;
iconst_2
invokevirtual java/io/PrintStream println (I)V
";

pub const PRINTS_3: &str = "getstatic java/lang/System out Ljava/io/PrintStream;
iconst_3
invokevirtual java/io/PrintStream println (I)V
";

pub const PRINTS_4: &str = "getstatic java/lang/System out Ljava/io/PrintStream;
iconst_4
invokevirtual java/io/PrintStream println (I)V
";

pub const PRINTS_7: &str = "getstatic java/lang/System out Ljava/io/PrintStream;
bipush 7
invokevirtual java/io/PrintStream println (I)V
";

pub const PRINTS_8: &str = "getstatic java/lang/System out Ljava/io/PrintStream;
bipush 8
invokevirtual java/io/PrintStream println (I)V
";
